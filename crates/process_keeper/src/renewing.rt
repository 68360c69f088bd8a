//! Other labels for a keeper while processes run.

ghost use Rattle.std.specs.Prelude.{◌≡◌, ◌≢◌, [], map, None, Some, option_map, IfOk, IfErr, OnOk, OnErr};
ghost use Rattle.std.specs.List.{list_any};
ghost use Rattle.process_keeper.specs.Renewal.{first_forgotten, is_forgotten, is_idle, is_source, lifecycle_from};

use crate::fault::KeeperFault;
use crate::keeper::Keeper;
use crate::lifecycle::Lifecycle;
use std::alloc::AllocError;

impl Keeper {
    /// Returns a keeper of other labels, which takes this one's place. `sources` has, for each of them, the number here of the label whose
    /// processes it takes over, or `None` for a new label, of which an earlier run may have left processes. Generations are the same.
    ///
    /// Refuses as StillBusy if a label that no other one takes over has a process, may have one of an earlier run, or has a pending start.
    /// Then reports NoRoom, only if there are labels.
    pub fn renewed(&self, sources: &[Option<usize>]) -> Result<Keeper, KeeperFault>
        ensures labels { IfOk result (λ it. it.labels.items ≡ map (lifecycle_from self.now.labels.items) sources.now) }
        ensures generations { IfOk result (λ it. (it.next ≡ self.now.next) × (it.file ≡ self.now.file)) }
        ensures kept { OnOk result (first_forgotten sources.now 0 self.now.labels.items ≡ None) }
        ensures refused { IfErr result (λ fault. fault ≢ KeeperFault.NoRoom →
            option_map KeeperFault.StillBusy (first_forgotten sources.now 0 self.now.labels.items) ≡ Some fault) }
        ensures last { IfErr result (λ fault. fault ≡ KeeperFault.NoRoom → first_forgotten sources.now 0 self.now.labels.items ≡ None) }
        ensures room { IfErr result (λ fault. fault ≡ KeeperFault.NoRoom → sources.now ≢ []) }
    {
        if let Some(label) = self.first_forgotten(sources) {
            return Err(KeeperFault::StillBusy(label));
        }
        match self.labels_from(sources) {
            Ok(labels) => Ok(Keeper {
                labels,
                next: self.next,
                file: self.file,
            }),
            Err(_) => Err(KeeperFault::NoRoom),
        }
    }

    // Returns the lifecycles of the other labels. Takes no memory for none.
    fn labels_from(&self, sources: &[Option<usize>]) -> Result<Vec<Lifecycle>, AllocError>
        ensures labels { IfOk result (λ labels. labels.items ≡ map (lifecycle_from self.now.labels.items) sources.now) }
        ensures room { OnErr result (sources.now ≢ []) }
    {
        let mut labels = Vec::new(*self.labels.allocator());
        for source in sources {
            labels.push(self.lifecycle_from(*source))?;
        }
        Ok(labels)
    }

    // Returns the lifecycle that a label takes over, or a new one.
    fn lifecycle_from(&self, source: Option<usize>) -> Lifecycle
        ensures { result ≡ lifecycle_from self.now.labels.items source }
    {
        match source {
            Some(label) => match self.labels.get(label) {
                Some(lifecycle) => *lifecycle,
                None => Lifecycle::new(),
            },
            None => Lifecycle::new(),
        }
    }

    // Returns the first label that isn't idle, and that none of the others takes over.
    fn first_forgotten(&self, sources: &[Option<usize>]) -> Option<usize>
        ensures { result ≡ first_forgotten sources.now 0 self.now.labels.items }
    {
        for k in 0..self.labels.len() {
            if is_forgotten(sources, k, &self.labels[k]) {
                return Some(k);
            }
        }
        None
    }
}

impl Lifecycle {
    // Returns whether the label has no process, and no pending start.
    fn is_idle(&self) -> bool
        ensures { result ≡ is_idle self.now }
    {
        self.is_clean && self.instance.is_none() && self.pending.is_none()
    }
}

fn is_forgotten(sources: &[Option<usize>], label: usize, lifecycle: &Lifecycle) -> bool
    ensures { result ≡ is_forgotten sources.now label lifecycle.now }
{
    !lifecycle.is_idle() && !is_taken_over(sources, label)
}

// Returns whether one of the other labels takes this one over.
fn is_taken_over(sources: &[Option<usize>], label: usize) -> bool
    ensures { result ≡ list_any (is_source label) sources.now }
{
    sources.iter().any(|source| is_source(*source, label))
}

fn is_source(source: Option<usize>, label: usize) -> bool
    ensures { result ≡ is_source label source }
{
    match source {
        Some(number) => number == label,
        None => false,
    }
}
