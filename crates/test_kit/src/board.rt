//! A board on which the threads of a crew leave notes for each other.

ghost use Rattle.std.specs.Prelude.{◌≡◌};
ghost use Rattle.desk.specs.Pass.{desk_of_note};

use desk::{Note, NoteOf, Sight};
use desk_rule::{DeskView, Slot};
use history::Machine;
use std::marker::{Brand, PhantomData};
use std::sync::Mutex;

/// The name of a desk, for types alone. Each crew has its own.
pub trait DeskName {
    ghost use Rattle.atomic_table.specs.Seated.{TableId};

    ghost table: { TableId };
}

impl DeskName for Brand {
    ghost use Rattle.std.specs.Prelude.{[]};

    ghost table = { record { words = 0; slots = 0; views_name = 0; atom = 0; block = 0; offset = 0; slot_names = [] } };
}

/// A note of the desk that a thread left. Its parameters are plain, so the toolchain finds that it may cross threads.
#[derive(Drop)]
pub struct LeftOf<S, V: Sight, D: DeskName> {
    note: NoteOf<S, V>,
    // How far the thread had looked by then.
    front: u64,
    of: PhantomData<D>,
    ghost of_desk: { note.seat.table_id ≡ D.table },
}

/// A note that a thread left, for a desk over this machine.
pub type Left<M, D> = LeftOf<Slot<M>, DeskView<M>, D>;

/// A place for one note, shared by the threads.
pub type Board<M, D> = Mutex<Option<Left<M, D>>>;

impl<M: Machine, D: DeskName> Left<M, D> {
    /// Returns a note to leave, from a thread that has looked this far.
    pub(crate) fn new(note: Note<M>, front: u64) -> Left<M, D>
        requires { desk_of_note note ≡ D.table }
    {
        LeftOf {
            note,
            front,
            of: PhantomData,
        }
    }

    /// Returns the note, and how far its thread had looked.
    pub(crate) fn into_note(self) -> (Note<M>, u64)
        ensures { desk_of_note result.0 ≡ D.table }
    {
        let LeftOf { note, front, of: _ } = self;
        (note, front)
    }
}
