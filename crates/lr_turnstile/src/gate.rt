ghost use Rattle.std.specs.Prelude.{◌≡◌};

use crate::home::Home;
use crate::kept::Kept;
use crate::naps::Naps;
use crate::steps::GateRule;
use crate::view::View;
use atomic_table::Table;
use std::alloc::Global;

/// A value that threads change one at a time, each by an entry of one history.
#[derive(Drop)]
pub struct Gate<V: Kept> {
    pub(crate) table: Table<Home<V>, View, (), GateRule, Global>,
    pub(crate) naps: Naps,
    ghost sized: { (table.shared.table_id.words ≡ 1) × (table.shared.table_id.slots ≡ 1) },
}
