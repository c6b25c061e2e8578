// How often the files of each kind have failed.
ghost use Rattle.std.specs.Prelude.{◌≡◌, ◌≤◌, ◌≢◌, IsErrOf};
ghost use Rattle.diva_outside.specs.Causes.{Rose};

use crate::{LoadFault, What};

/// One counter for each kind of file. A counter stays at its last value, `u64::MAX`.
#[derive(Clone, Copy, Debug)]
pub(crate) struct Faults {
    image: u64,
    script: u64,
    tape: u64,
    source: u64,
    commands: u64,
}

impl Faults {
    ghost use Rattle.diva_outside.specs.declared.files.What.{What};
    ghost use Rattle.diva_outside.specs.Faults.{faults_of, no_faults, raised_at, Counts};

    /// No fault of any kind.
    pub fn none() -> Self
        ensures { result ≡ no_faults }
    {
        Faults {
            image: 0,
            script: 0,
            tape: 0,
            source: 0,
            commands: 0,
        }
    }

    /// Counts one more fault of this kind.
    pub fn raise(&mut self, what: What)
        ensures raised { self.new ≡ raised_at self.old what }
        ensures rose { Rose (faults_of self.old what) (faults_of self.new what) }
        ensures later { (w : What) → faults_of self.old w ≤ faults_of self.new w }
        ensures others { (w : What) → w ≢ what → faults_of self.new w ≡ faults_of self.old w }
    {
        match what {
            What::Image => self.image = self.image.saturating_add(1),
            What::Script => self.script = self.script.saturating_add(1),
            What::Tape => self.tape = self.tape.saturating_add(1),
            What::Source => self.source = self.source.saturating_add(1),
            What::Commands => self.commands = self.commands.saturating_add(1),
        }
    }

    /// Counts a fault where the load answered `Failed`.
    pub fn count(&mut self, what: What, answer: &Result<Vec<u8>, LoadFault>)
        ensures counts { Counts self.old self.new what answer.now }
        ensures failed { IsErrOf answer.now LoadFault.Failed
            → Rose (faults_of self.old what) (faults_of self.new what) }
        ensures later { (w : What) → faults_of self.old w ≤ faults_of self.new w }
        ensures others { (w : What) → w ≢ what → faults_of self.new w ≡ faults_of self.old w }
    {
        if let Err(LoadFault::Failed) = answer {
            self.raise(what);
        }
    }
}
