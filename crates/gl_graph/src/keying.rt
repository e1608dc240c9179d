//! Giving stored records one more key each.

ghost use Rattle.std.specs.Prelude.{◌≡◌, ◌+◌, ◌<◌, ◌-◌, ◌≤◌, IfOk, Some, length};
ghost use Rattle.slab.specs.Slab.{ContainsKey, Updates, get, slab_len};
ghost use Rattle.gl_graph.specs.declared.node.Node.{Node as Stored};
ghost use Rattle.gl_graph.specs.Seen.{body_with_parent, parents_in_body};
ghost use Rattle.gl_graph.specs.Keying.{
  AreBodiesFor,
  AreKeyed,
  AreRecordsStored,
  CanBeKeyed,
  IsIndexStored,
  interval_in_body,
};

use crate::bounds::interval_place;
use crate::node::{Body, Node};
use gl_modes::NodeId;
use slab::Slab;
use std::alloc::{AllocError, Global};
use std::mem;

/// Bodies for these records with one more key each. The last parent of each is yet to be set.
pub(crate) fn keyed_bodies(
    alloc: Global,
    nodes: &Slab<Node>,
    records: &[NodeId],
    keys: &[u64],
) -> Result<Vec<Body>, AllocError>
    requires stored { AreRecordsStored nodes.now records.now }
    requires each { length keys.now ≡ length records.now }
    ensures { IfOk result (λ bodies. AreBodiesFor nodes.now records.now keys.now bodies.items (length records.now)) }
{
    let mut bodies = Vec::with_capacity(alloc, records.len())?;
    for (place, rec) in records.iter().enumerate() {
        bodies.push(nodes[rec.key].body.with_key(alloc, keys[place])?)?;
    }
    Ok(bodies)
}

/// The interval of a stored index that contains the key.
fn stored_interval(nodes: &Slab<Node>, index: usize, key: u64) -> NodeId
    requires { IsIndexStored nodes.now index }
    ensures { (x : Stored) → get nodes.now index ≡ Some x → result ≡ interval_in_body x.body key }
{
    let body = &nodes[index].body;
    body.intervals()[interval_place(body.bounds(), key)]
}

/// Stores this body in place of a node's, with its last parent set.
fn write_record(nodes: &mut Slab<Node>, at: usize, body: &mut Body, interval: NodeId)
    requires there { ContainsKey nodes.old at }
    requires parents { 0 < length (parents_in_body body.old) }
    ensures written { (x : Stored) → get nodes.old at ≡ Some x
        → Updates nodes.old nodes.new at (Some (record x { body = body_with_parent body.old (length (parents_in_body body.old) - 1) interval })) }
    ensures len { slab_len nodes.new ≡ slab_len nodes.old }
{
    let last = body.parents().len() - 1;
    body.set_parent(last, interval);
    mem::swap(&mut nodes[at].body, body);
}

/// Stores these bodies for these records, each with the interval of its key in the index as its last
/// parent.
pub(crate) fn key_records(
    nodes: &mut Slab<Node>,
    index: usize,
    records: &[NodeId],
    keys: &[u64],
    bodies: &mut Vec<Body>,
)
    requires { CanBeKeyed nodes.old index records.now keys.now bodies.old.items }
    ensures { (x : Stored) → get nodes.old index ≡ Some x
        → AreKeyed nodes.old nodes.new (interval_in_body x.body) records.now keys.now (length records.now) }
{
    for (place, rec) in records.iter().enumerate() {
        let interval = stored_interval(nodes, index, keys[place]);
        write_record(nodes, rec.key, &mut bodies[place], interval);
    }
}
