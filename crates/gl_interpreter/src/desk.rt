//! The state of a script between two lines: the names that it has declared, and its lock manager.

ghost use Rattle.std.specs.Prelude.{◌≡◌, [], false, is_some, map};
ghost use Rattle.gl_graph.specs.Graph.{first_parent, place_of};
ghost use Rattle.gl_script.specs.Views.{command_of, node_of, nodes_of, records_of};
ghost use Rattle.gl_interpreter.specs.Names.{no_names};
ghost use Rattle.gl_interpreter.specs.Rows.{name_at};
ghost use Rattle.gl_interpreter.specs.Rooms.{HasRoomFor, IsRoomed, MakesRoom, MakesRoomIn};
ghost use Rattle.gl_interpreter.specs.Script.{
  Asks,
  Does,
  EndedTxn,
  NextTxn,
  NodeName,
  RemovedNode,
  TxnName,
  node_id,
  node_ids,
  node_named,
  plain_id,
  renamed,
  txn_id,
};
ghost use Rattle.gl_interpreter.specs.Views.{HasRoom, id_in, name_in, names_of, naming_of, script_of};

use crate::naming::{Naming, does_to_names};
use crate::register::Register;
use crate::request::{Request, Said, of_lock, of_number, of_removal, of_request, of_txn};
use arrayvec::ArrayVec;
use gl_catalog::{Answer, Command, Manager};
use gl_modes::{NodeId, Refusal};
use gl_script::{Form, Language, Lists, Name, Used, Version};
use gl_table::{Told, TxnId};
use std::alloc::Global;
use std::hash::Hash;

/// The ids of nodes that a line lists.
pub(crate) type Ids = ArrayVec<NodeId, 257>;

/// What a script has declared, and its lock manager.
#[derive(Drop)]
pub(crate) struct Desk {
    pub(crate) language: Language,
    pub(crate) manager: Manager,
    nodes: Register<NodeId>,
    txns: Register<TxnId>,
}

impl Desk {
    /// A script of this language before its first line.
    pub(crate) fn new(alloc: Global, language: Language, manager: Manager) -> Desk
        ensures language { result.language ≡ language }
        ensures manager { result.manager ≡ manager }
        ensures names { names_of result ≡ no_names }
    {
        Desk {
            language,
            manager,
            nodes: Register::new(alloc),
            txns: Register::new(alloc),
        }
    }

    /// Restarts as a script of this version before its first line.
    pub(crate) fn begin_version(&mut self, version: Version, manager: Manager)
        ensures language { self.new.language ≡ record (self.old.language) { version = version } }
        ensures manager { self.new.manager ≡ manager }
        ensures names { names_of self.new ≡ names_of self.old }
    {
        self.language.version = version;
        self.manager = manager;
    }

    /// Carries out the command of a line. A name that is in use cannot be declared again; room for a
    /// new one is made first.
    pub(crate) fn serve(
        &mut self,
        form: &Form,
        lists: &Lists,
        ids: &mut Ids,
        records: &mut Ids,
        told: &mut Told,
    ) -> Said
        requires empty { told.old.items ≡ [] }
        ensures does { Does (script_of self.old) (command_of form.now lists.now) result told.new.items (script_of self.new) }
    {
        let naming = does_to_names(form);
        if let Err(refusal) = self.make_room(naming) {
            return Said::Answer(Answer::Refused(refusal));
        }
        self.resolve(&lists.nodes, ids);
        self.resolve(&lists.records, records);
        match self.request(form, lists, ids.as_slice(), records.as_slice()) {
            Request::Apply(command) => {
                let answer = self.manager.apply_telling(command, told);
                self.rename(naming, answer);
                Said::Answer(answer)
            }
            Request::Mark(txn) => self.mark(txn),
            Request::Release(txn, mark) => self.release(txn, mark, told),
        }
    }

    /// Whether the name that a line declares is free, or that of the transaction that it renews, and
    /// there is room for it.
    fn make_room(&mut self, naming: Naming<'_>) -> Result<(), Refusal>
        ensures names { names_of self.new ≡ names_of self.old }
        ensures language { self.new.language ≡ self.old.language }
        ensures manager { self.new.manager ≡ self.old.manager }
        ensures room { MakesRoom (names_of self.old) (naming_of naming.entry) self.new result }
    {
        match naming {
            Naming::Node(name) => room_for(&mut self.nodes, name),
            Naming::Txn(name) => room_for(&mut self.txns, name),
            Naming::NextTxn(_) => room_in(&mut self.txns),
            Naming::EndedTxn(_) | Naming::RemovedNode(_) | Naming::Nothing => Ok(()),
        }
    }

    /// The ids of nodes that a line lists.
    fn resolve(&self, nodes: &ArrayVec<Used, 257>, ids: &mut Ids)
        ensures { ids.new.items ≡ node_ids (script_of self.now) (map node_of nodes.now.items) }
    {
        ids.clear();
        for node in nodes.as_slice() {
            let _ = ids.try_push(self.node_id(node));
        }
    }

    /// The request of a line to the manager.
    fn request<'a>(
        &self,
        form: &Form,
        lists: &'a Lists,
        ids: &'a [NodeId],
        records: &'a [NodeId],
    ) -> Request<'a>
        requires ids { ids.now ≡ node_ids (script_of self.now) (nodes_of lists.now) }
        requires records { records.now ≡ node_ids (script_of self.now) (records_of lists.now) }
        ensures { Asks (script_of self.now) (command_of form.now lists.now) result }
    {
        let numbers = lists.numbers.as_slice();
        match form {
            Form::Inner { .. } => Request::Apply(Command::Inner { parents: ids }),
            Form::File { .. } => Request::Apply(Command::File { parents: ids }),
            Form::Index { file, .. } => Request::Apply(Command::Index {
                parents: ids,
                file: self.plain_id(file),
                bounds: numbers,
            }),
            Form::IndexBy { txn, file, .. } => Request::Apply(Command::IndexBy {
                txn: self.txn_id(txn),
                parents: ids,
                file: self.plain_id(file),
                bounds: numbers,
                records: &[],
                keys: &[],
            }),
            Form::IndexOver { txn, file, .. } => Request::Apply(Command::IndexBy {
                txn: self.txn_id(txn),
                parents: ids,
                file: self.plain_id(file),
                bounds: numbers,
                records,
                keys: lists.keys.as_slice(),
            }),
            Form::Begin { .. } => Request::Apply(Command::Begin),
            Form::BeginAgain { since, .. } => {
                Request::Apply(Command::BeginAgain { since: *since })
            }
            Form::Join { slot, since, .. } => Request::Apply(Command::Join {
                slot: *slot as usize,
                since: *since,
            }),
            Form::Insert { txn, file, .. } => Request::Apply(Command::Insert {
                txn: self.txn_id(txn),
                file: self.plain_id(file),
                keys: numbers,
            }),
            Form::Adopt { file, .. } => Request::Apply(Command::Adopt {
                file: self.plain_id(file),
                keys: numbers,
            }),
            Form::Forget { rec } => Request::Apply(Command::Forget {
                rec: self.plain_id(rec),
            }),
            Form::Rekey {
                txn,
                rec,
                index,
                key,
            } => Request::Apply(Command::Rekey {
                txn: self.txn_id(txn),
                rec: self.plain_id(rec),
                index: self.plain_id(index),
                key: *key,
            }),
            Form::Move { txn, node } => Request::Apply(Command::Move {
                txn: self.txn_id(txn),
                node: self.node_id(node),
                parents: ids,
            }),
            Form::Split { txn, node, at } => Request::Apply(Command::Split {
                txn: self.txn_id(txn),
                interval: self.node_id(node),
                at: *at,
            }),
            Form::Merge { txn, node } => Request::Apply(Command::Merge {
                txn: self.txn_id(txn),
                interval: self.node_id(node),
            }),
            Form::Group { node } => Request::Apply(Command::Group {
                node: self.node_id(node),
            }),
            Form::OfTxn { verb, txn } => of_txn(*verb, self.txn_id(txn)),
            Form::OfLock { verb, txn, node } => {
                Request::Apply(of_lock(*verb, self.txn_id(txn), self.node_id(node)))
            }
            Form::OfRequest {
                verb,
                txn,
                mode,
                node,
            } => Request::Apply(of_request(*verb, self.txn_id(txn), self.node_id(node), *mode)),
            Form::OfRemoval { verb, txn, node } => {
                Request::Apply(of_removal(*verb, self.txn_id(txn), self.plain_id(node)))
            }
            Form::OfNumber { verb, txn, number } => of_number(*verb, self.txn_id(txn), *number),
        }
    }

    /// Updates the names after a command: a new node or transaction has its name, and the name of one
    /// that is gone is free.
    fn rename(&mut self, naming: Naming<'_>, answer: Answer)
        requires room { HasRoomFor self.old (naming_of naming) }
        ensures names { names_of self.new ≡ renamed (names_of self.old) (naming_of naming.entry) answer }
        ensures language { self.new.language ≡ self.old.language }
        ensures manager { self.new.manager ≡ self.old.manager }
    {
        match naming {
            Naming::Node(name) => self.name_node(name, answer),
            Naming::Txn(name) => self.name_txn(name, answer),
            Naming::NextTxn(name) => self.name_next_txn(name, answer),
            Naming::EndedTxn(name) => self.free_txn(name, answer),
            Naming::RemovedNode(name) => self.free_node(name, answer),
            Naming::Nothing => {}
        }
    }

    /// Gives this name to the node that was made.
    fn name_node(&mut self, name: &Name, answer: Answer)
        requires room { HasRoom self.old.nodes }
        ensures names { names_of self.new ≡ renamed (names_of self.old) (NodeName name.now.items) answer }
        ensures language { self.new.language ≡ self.old.language }
        ensures manager { self.new.manager ≡ self.old.manager }
    {
        if let Answer::Node(id) = answer {
            self.nodes.add(name, id);
        }
    }

    /// Gives this name to the transaction that began.
    fn name_txn(&mut self, name: &Name, answer: Answer)
        requires room { HasRoom self.old.txns }
        ensures names { names_of self.new ≡ renamed (names_of self.old) (TxnName name.now.items) answer }
        ensures language { self.new.language ≡ self.old.language }
        ensures manager { self.new.manager ≡ self.old.manager }
    {
        if let Answer::Begun(id) = answer {
            self.txns.add(name, id);
        }
    }

    /// Gives the name of a transaction that was renewed to the one that began in its place.
    fn name_next_txn(&mut self, name: &Name, answer: Answer)
        requires room { HasRoom self.old.txns }
        ensures names { names_of self.new ≡ renamed (names_of self.old) (NextTxn name.now.items) answer }
        ensures language { self.new.language ≡ self.old.language }
        ensures manager { self.new.manager ≡ self.old.manager }
    {
        if let Answer::Begun(id) = answer {
            let ended = self.txn_id(name);
            self.txns.remove(name, ended);
            self.txns.add(name, id);
        }
    }

    /// Frees the name of a transaction that has ended.
    fn free_txn(&mut self, name: &Name, answer: Answer)
        ensures names { names_of self.new ≡ renamed (names_of self.old) (EndedTxn name.now.items) answer }
        ensures language { self.new.language ≡ self.old.language }
        ensures manager { self.new.manager ≡ self.old.manager }
    {
        if matches!(answer, Answer::Done) {
            let id = self.txn_id(name);
            self.txns.remove(name, id);
        }
    }

    /// Frees the name of a node that was removed.
    fn free_node(&mut self, name: &Name, answer: Answer)
        ensures names { names_of self.new ≡ renamed (names_of self.old) (RemovedNode name.now.items) answer }
        ensures language { self.new.language ≡ self.old.language }
        ensures manager { self.new.manager ≡ self.old.manager }
    {
        if matches!(answer, Answer::Done) {
            let id = self.plain_id(name);
            self.nodes.remove(name, id);
        }
    }

    /// The node with this name, if there is one.
    pub(crate) fn find(&self, node: &Used) -> Option<NodeId>
        ensures { result ≡ node_named (script_of self.now) (node_of node.now) }
    {
        let id = self.nodes.id(&node.name)?;
        match node.interval {
            None => Some(id),
            Some(place) => self.manager.graph().interval(id, place as usize),
        }
    }

    /// Whether this is the name of a node.
    pub(crate) fn is_node(&self, name: &Name) -> bool
        ensures { result ≡ is_some ((script_of self.now).names.node name.now.items) }
    {
        self.nodes.id(name).is_some()
    }

    /// The name of a node; empty if it has none of its own.
    pub(crate) fn node_name(&self, node: NodeId) -> &[u8]
        ensures { result.now ≡ (script_of self.now).names.node_name node }
    {
        self.nodes.name(node)
    }

    /// The name of an interval's index.
    pub(crate) fn index_name(&self, interval: NodeId) -> &[u8]
        ensures { result.now ≡ (script_of self.now).names.node_name (first_parent (script_of self.now).locks.graph interval) }
    {
        match self.manager.graph().parents(interval).first() {
            Some(index) => self.nodes.name(*index),
            None => self.nodes.name(NodeId::NONE),
        }
    }

    /// The place of an interval in its index; `None` for any other node.
    pub(crate) fn place(&self, node: NodeId) -> Option<usize>
        ensures { result ≡ place_of (script_of self.now).locks.graph node }
    {
        self.manager.graph().place(node)
    }

    /// The name of a transaction.
    pub(crate) fn txn_name(&self, txn: TxnId) -> &[u8]
        ensures { result.now ≡ (script_of self.now).names.txn_name txn }
    {
        self.txns.name(txn)
    }

    /// How many nodes have a name of their own.
    pub(crate) fn node_count(&self) -> usize {
        self.nodes.len()
    }

    /// The node at a place among those with a name of their own.
    pub(crate) fn node_at(&self, place: usize) -> Option<NodeId> {
        self.nodes.id_at(place)
    }

    /// The name of the transaction in a slot, empty if the slot is free.
    pub(crate) fn name_at(&self, slot: u8) -> &[u8]
        ensures { result.now ≡ name_at (script_of self.now) slot }
    {
        match self.manager.living(slot) {
            Some((txn, _)) => self.txns.name(txn),
            None => &[],
        }
    }

    /// The id of a node; if the name is not in use, an id of no node.
    pub(crate) fn node_id(&self, node: &Used) -> NodeId
        ensures { result ≡ node_id (script_of self.now) (node_of node.now) }
    {
        self.find(node).unwrap_or(NodeId::NONE)
    }

    /// The id of a node with a name of its own.
    fn plain_id(&self, name: &Name) -> NodeId
        ensures { result ≡ plain_id (names_of self.now) name.now.items }
    {
        self.nodes.id(name).unwrap_or(NodeId::NONE)
    }

    /// The id of a transaction; if the name is not in use, an id of none.
    pub(crate) fn txn_id(&self, name: &Name) -> TxnId
        ensures { result ≡ txn_id (names_of self.now) name.now.items }
    {
        self.txns.id(name).unwrap_or(TxnId::NONE)
    }
}

/// Whether a name is free, and there is room for it.
fn room_for<I: Copy + Eq + Hash + Drop>(
    register: &mut Register<I>,
    name: &Name,
) -> Result<(), Refusal>
    ensures ids { id_in register.new ≡ id_in register.old }
    ensures names { name_in I.eq register.new ≡ name_in I.eq register.old }
    ensures room { MakesRoomIn register.old name.now.items register.new result }
{
    if register.id(name).is_some() {
        return Err(Refusal::NameTaken);
    }
    room_in(register)
}

/// Whether there is room for one more name.
fn room_in<I: Copy + Eq + Hash + Drop>(register: &mut Register<I>) -> Result<(), Refusal>
    ensures ids { id_in register.new ≡ id_in register.old }
    ensures names { name_in I.eq register.new ≡ name_in I.eq register.old }
    ensures room { IsRoomed false (HasRoom register.new) result }
{
    if register.make_room() {
        Ok(())
    } else {
        Err(Refusal::NoMemory)
    }
}
