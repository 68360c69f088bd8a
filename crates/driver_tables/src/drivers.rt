//! The interface that the driver tables of both servers share.

ghost use Rattle.std.specs.Prelude.{◌≡◌, length, slice_get, OnErr};
ghost use Rattle.std.specs.Option.{option_map};
ghost use Rattle.driver_tables.specs.Label.{newest, is_old_for};
ghost use Rattle.driver_tables.specs.DriverTable.{DriverTable};
ghost use Rattle.driver_tables.specs.Outcome.{AnswersAs, LeavesAs};
ghost use Rattle.driver_tables.specs.Room.{LacksOnlyWhere, StateTakesMemory, RequestTakesMemory};
ghost use Rattle.driver_tables.specs.Changed.{changing};
ghost use Rattle.driver_tables.specs.Submit.{submitting};
ghost use Rattle.driver_tables.specs.Reply.{replying};
ghost use Rattle.driver_tables.specs.Stands.{TableStands};

use crate::fault::TableFault;
use crate::moves::{Move, Moves};
use ds_names::{Endpoint, Generation, Name};

/// The driver table of either server. Only the assignment of a unit differs: a file server's unit is a major device of
/// a class, a network server's is a port.
pub trait Drivers {
    ghost use Rattle.driver_tables.specs.Stands.{TableRecord};

    // The value that the code keeps of the table.
    ghost kept: { Self → TableRecord };

    /// Returns the number of assigned units. It takes no memory.
    fn unit_count(&self) -> usize
        ensures { (t : DriverTable) → TableStands (kept self.now) t → result ≡ length t.units };

    /// Returns the label of the unit at an index from 0, in order of assignment; `None` past the end. It takes no
    /// memory.
    fn label_at(&self, index: usize) -> Option<Name>
        ensures { (t : DriverTable) → TableStands (kept self.now) t → result ≡ option_map (λ u. u.1.label) (slice_get t.units index) };

    /// Returns the greatest generation that a label ever had; `None` if it has no unit or never had an endpoint. It
    /// takes no memory.
    fn newest(&self, label: &Name) -> Option<Generation>
        ensures { (t : DriverTable) → TableStands (kept self.now) t → result ≡ newest t.states label.now };

    /// Returns whether `changed` refuses a state as OldEndpoint: its generation is below the label's greatest, or is
    /// the greatest and the endpoint isn't the one now. It takes no memory.
    fn is_old(&self, label: &Name, state: &Option<Endpoint>) -> bool
        ensures { (t : DriverTable) → TableStands (kept self.now) t → result ≡ is_old_for t.states label.now state.now };

    /// Records a label's new state, and returns the moves that follow from it. Refuses an old state as OldEndpoint;
    /// NoRoom comes last, and only if there are moves.
    fn changed(&mut self, label: &Name, state: Option<Endpoint>) -> Result<Moves, TableFault>
        ensures answer { AnswersAs (kept self.old) (λ t. changing t label.now state) result }
        ensures room { (t : DriverTable) → TableStands (kept self.old) t → LacksOnlyWhere (StateTakesMemory t label.now state) result }
        ensures after { LeavesAs (kept self.old) (λ t. changing t label.now state) result (kept self.new) }
        ensures unchanged { OnErr result (kept self.new ≡ kept self.old) };

    /// Accepts a request to a unit, and returns its move. Refusals in order: TwoIds unless the id is above all accepted
    /// ones; NoDevice, which consumes no id; NoRoom, only for a request that is sent or held.
    fn submit(&mut self, id: u64, unit: u8) -> Result<Move, TableFault>
        ensures answer { AnswersAs (kept self.old) (λ t. submitting t id unit) result }
        ensures room { (t : DriverTable) → TableStands (kept self.old) t → LacksOnlyWhere (RequestTakesMemory t id unit) result }
        ensures after { LeavesAs (kept self.old) (λ t. submitting t id unit) result (kept self.new) }
        ensures unchanged { OnErr result (kept self.new ≡ kept self.old) };

    /// Accepts a driver's reply to a request, and returns the move that answers it Done. Refuses as NotPending, then
    /// as OldEndpoint if the request was last sent to another endpoint. It takes no memory.
    fn reply(&mut self, endpoint: Endpoint, id: u64) -> Result<Move, TableFault>
        ensures answer { (t : DriverTable) → TableStands (kept self.old) t → result ≡ (replying t endpoint id).0 }
        ensures after { LeavesAs (kept self.old) (λ t. replying t endpoint id) result (kept self.new) }
        ensures unchanged { OnErr result (kept self.new ≡ kept self.old) };
}
