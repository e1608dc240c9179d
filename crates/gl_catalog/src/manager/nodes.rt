//! New nodes of the graph. Each call does what `apply` does for its command, with its refusals.

ghost use Rattle.std.specs.Prelude.{◌≡◌, IfOk, OnErr};
ghost use Rattle.gl_steps.specs.declared.command.Command.TheVariants as command;
ghost use Rattle.gl_catalog.specs.Completes.{Completes};
ghost use Rattle.gl_catalog.specs.Manager.{state_of};
ghost use Rattle.gl_catalog.specs.Replies.{CallSteps, made};

use super::Manager;
use gl_modes::{NodeId, Refusal};

impl Manager {
    /// Makes an inner node under these; without parents it is a root.
    pub fn add_inner(&mut self, parents: &[NodeId]) -> Result<NodeId, Refusal>
        ensures step { CallSteps (state_of self.old) (command.Inner parents.entry) made result (state_of self.new) }
        ensures completes { IfOk result (λ x. Completes (command.Inner parents.entry) self.old (made x) self.new) }
        ensures err { OnErr result (self.new ≡ self.old) }
    {
        self.check_count()?;
        let node = self.table.add_inner(parents)?;
        self.table.law();
        self.accepted += 1;
        Ok(node)
    }

    /// Makes a file under these.
    pub fn add_file(&mut self, parents: &[NodeId]) -> Result<NodeId, Refusal>
        ensures step { CallSteps (state_of self.old) (command.File parents.entry) made result (state_of self.new) }
        ensures completes { IfOk result (λ x. Completes (command.File parents.entry) self.old (made x) self.new) }
        ensures err { OnErr result (self.new ≡ self.old) }
    {
        self.check_count()?;
        let node = self.table.add_file(parents)?;
        self.table.law();
        self.accepted += 1;
        Ok(node)
    }

    /// Makes an index under these, of a file that has no records and had no row adopted, with an
    /// interval at key 0 and one at each bound.
    pub fn add_index(
        &mut self,
        parents: &[NodeId],
        file: NodeId,
        bounds: &[u64],
    ) -> Result<NodeId, Refusal>
        ensures step { CallSteps (state_of self.old) (command.Index parents.entry file bounds.entry) made result (state_of self.new) }
        ensures completes { IfOk result (λ x. Completes (command.Index parents.entry file bounds.entry) self.old (made x) self.new) }
        ensures err { OnErr result (self.new ≡ self.old) }
    {
        self.check_count()?;
        let node = self.table.add_index(parents, file, bounds)?;
        self.table.law();
        self.accepted += 1;
        Ok(node)
    }
}
