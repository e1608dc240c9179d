//! Questions about managers that work as one with others.

ghost use Rattle.std.specs.Option.{option_map};
ghost use Rattle.gl_catalog.specs.Manager.{state_of};
ghost use Rattle.gl_c.specs.managers.Handle.{guarded_in};
ghost use Rattle.gl_c.specs.questions.Passing.{AsksAfterIndex, AsksAfterMove, AsksLack, AsksMayClear, AsksOwn, FindsLack, FindsOwn};

use super::Handle;
use crate::answers::reply::Reply;
use crate::numbers::NO_MANAGER;
use crate::questions::passing::{
    Mark, Target, after_index_reply, after_move_reply, lacks_reply, may_clear_reply, own_copy_reply,
};
use gl_catalog::Manager;
use gl_modes::NodeId;

impl Handle {
    /// What a path in a part lacks, there and in this manager.
    pub(crate) fn lacks(
        &mut self,
        part: &mut Handle,
        slot: u32,
        target: Target,
        marks: &[Mark],
    ) -> Reply
        ensures { AsksLack (guarded_in self.old) (guarded_in part.old) slot target marks.now result (guarded_in self.new) (guarded_in part.new) }
    {
        let alloc = self.alloc;
        let Some(session) = self.take() else {
            return Reply::with_status(NO_MANAGER);
        };
        let reply = part.lacks_beside(Some(session.manager()), slot, target, marks);
        *self = Handle::of(alloc, session);
        reply
    }

    /// What a path in this part lacks, here and in a main manager, if that is looked at.
    pub(crate) fn lacks_beside(
        &mut self,
        main: Option<&Manager>,
        slot: u32,
        target: Target,
        marks: &[Mark],
    ) -> Reply
        ensures { FindsLack (option_map (λ m. state_of m.now) main.entry) (guarded_in self.old) slot target marks.now result (guarded_in self.new) }
    {
        let alloc = self.alloc;
        let Some(session) = self.take() else {
            return Reply::with_status(NO_MANAGER);
        };
        let reply = lacks_reply(alloc, main, session.manager(), slot, target, marks);
        *self = Handle::of(alloc, session);
        reply
    }

    /// What a transaction of a part has to copy of its own to this manager.
    pub(crate) fn own_copy(
        &mut self,
        node: NodeId,
        part: &mut Handle,
        in_part: NodeId,
        slot: u32,
    ) -> Reply
        ensures { AsksOwn (guarded_in self.old) node (guarded_in part.old) in_part slot result (guarded_in self.new) (guarded_in part.new) }
    {
        let alloc = self.alloc;
        let Some(session) = self.take() else {
            return Reply::with_status(NO_MANAGER);
        };
        let reply = part.own_copy_to(session.manager(), node, in_part, slot);
        *self = Handle::of(alloc, session);
        reply
    }

    /// What a transaction of this part has to copy of its own to a main manager.
    fn own_copy_to(&mut self, main: &Manager, in_main: NodeId, in_part: NodeId, slot: u32) -> Reply
        ensures { FindsOwn (state_of main.now) in_main (guarded_in self.old) in_part slot result (guarded_in self.new) }
    {
        let alloc = self.alloc;
        let Some(session) = self.take() else {
            return Reply::with_status(NO_MANAGER);
        };
        let reply = own_copy_reply(main, in_main, session.manager(), in_part, slot);
        *self = Handle::of(alloc, session);
        reply
    }

    /// Whether the marks for a node may be cleared.
    pub(crate) fn may_clear(&mut self, node: NodeId, in_progress: u64) -> Reply
        ensures { AsksMayClear (guarded_in self.old) node in_progress result (guarded_in self.new) }
    {
        let alloc = self.alloc;
        let Some(session) = self.take() else {
            return Reply::with_status(NO_MANAGER);
        };
        let reply = may_clear_reply(session.manager(), node, in_progress);
        *self = Handle::of(alloc, session);
        reply
    }

    /// What becomes of a wait in this part after an index of a file was made here.
    pub(crate) fn after_index(&mut self, target: Target, file: NodeId) -> Reply
        ensures { AsksAfterIndex (guarded_in self.old) target file result (guarded_in self.new) }
    {
        let alloc = self.alloc;
        let Some(session) = self.take() else {
            return Reply::with_status(NO_MANAGER);
        };
        let reply = after_index_reply(session.manager(), target, file);
        *self = Handle::of(alloc, session);
        reply
    }

    /// What becomes of a wait in this part if a node is moved here.
    pub(crate) fn after_move(&mut self, target: Target, node: NodeId) -> Reply
        ensures { AsksAfterMove (guarded_in self.old) target node result (guarded_in self.new) }
    {
        let alloc = self.alloc;
        let Some(session) = self.take() else {
            return Reply::with_status(NO_MANAGER);
        };
        let reply = after_move_reply(alloc, session.manager(), target, node);
        *self = Handle::of(alloc, session);
        reply
    }
}
