//! What a caller notes, and the file of generations.

ghost use Rattle.std.specs.Prelude.{◌≡◌, true};
ghost use Rattle.supervisor.specs.Following.{is_note};
ghost use Rattle.c_keeper.specs.Noting.{NotesWritten, Notes, NotesInput, NotesFile, noted_word, written_word};

use crate::inputs::input_of;
use crate::session::KeeperSession;
use crate::words::{BAD_KIND, BEHIND, DONE, NOT_ALLOWED, NOT_FOUND};
use node_supervisor::Processes;
use process_keeper::Input;

impl KeeperSession {
    /// Notes what was done to a service's processes, or seen of them: an input of a kind, with its value. Returns 0; NotFound if keepers
    /// aren't open; BadKind if there is no such input; NotAllowed if the service doesn't accept the input. If it isn't 0, nothing changes.
    pub fn note(&mut self, service: usize, kind: u32, value: u64) -> u32
        ensures rs { self.new.rs ≡ self.old.rs }
        ensures notes { Notes service kind value self.old.processes result self.new.processes }
    {
        let Some(processes) = &mut self.processes else {
            return NOT_FOUND;
        };
        match input_of(kind, value) {
            Some(input) => note_in(processes, service, input),
            None => BAD_KIND,
        }
    }

    /// Notes that the file has this generation. Returns 0; NotFound if keepers aren't open; or Behind if a later one was given. If it isn't
    /// 0, nothing changes.
    pub fn note_written(&mut self, file: u64) -> u32
        ensures rs { self.new.rs ≡ self.old.rs }
        ensures written { NotesWritten file self.old.processes result self.new.processes }
    {
        let Some(processes) = &mut self.processes else {
            return NOT_FOUND;
        };
        written_word(processes.note_written(file))
    }
}

// Notes an input that is for a caller to note.
fn note_in(processes: &mut Processes, service: usize, input: Input) -> u32
    requires { is_note input ≡ true }
    ensures { NotesInput service input processes.old result processes.new }
{
    noted_word(processes.note(service, input))
}

fn noted_word(accepted: bool) -> u32
    ensures { result ≡ noted_word accepted }
{
    if accepted { DONE } else { NOT_ALLOWED }
}

fn written_word(may: bool) -> u32
    ensures { result ≡ written_word may }
{
    if may { DONE } else { BEHIND }
}
