//! The names in use, each with its id, and the name of each id.

ghost use Rattle.std.specs.Prelude.{◌≡◌, ◌<◌, [], Option, Some, None, if◌then◌else◌, true};
ghost use Rattle.std.specs.Str.{bytes_eq};
ghost use Rattle.gl_interpreter.specs.Views.{HasRoom, id_in, name_in};

use gl_script::Name;
use indexmap::IndexMap;
use std::alloc::Global;
use std::hash::Hash;

/// The names of nodes, or those of transactions.
#[derive(Drop)]
pub(crate) struct Register<I: Eq + Hash> {
    ids: IndexMap<Name, I>,
    names: IndexMap<I, Name>,
}

impl<I: Copy + Eq + Hash + Drop> Register<I> {
    /// A register without names.
    pub(crate) fn new(alloc: Global) -> Register<I>
        ensures ids { id_in result ≡ (λ n. None) }
        ensures names { name_in I.eq result ≡ (λ x. []) }
    {
        Register {
            ids: IndexMap::new(alloc),
            names: IndexMap::new(alloc),
        }
    }

    /// The id of a name, if it is in use.
    pub(crate) fn id(&self, name: &Name) -> Option<I>
        ensures { result ≡ id_in self.now name.now.items }
    {
        self.ids.get(name).copied()
    }

    /// The name of an id, empty if it has none.
    pub(crate) fn name(&self, id: I) -> &[u8]
        ensures { result.now ≡ name_in I.eq self.now id }
    {
        match self.names.get(&id) {
            Some(name) => name.as_slice(),
            None => &[],
        }
    }

    /// How many names are in use.
    pub(crate) fn len(&self) -> usize {
        self.names.len()
    }

    /// The id at a place among those with a name.
    pub(crate) fn id_at(&self, place: usize) -> Option<I> {
        let (id, _) = self.names.get_index(place)?;
        Some(*id)
    }

    /// Makes room for one more name, and returns whether there is.
    pub(crate) fn make_room(&mut self) -> bool
        ensures ids { id_in self.new ≡ id_in self.old }
        ensures names { name_in I.eq self.new ≡ name_in I.eq self.old }
        ensures room { result ≡ true → HasRoom self.new }
    {
        self.ids.reserve(1).is_ok() && self.names.reserve(1).is_ok()
    }

    /// Adds a name, for which there must be room.
    pub(crate) fn add(&mut self, name: &Name, id: I)
        requires room { HasRoom self.old }
        ensures ids { id_in self.new ≡ (λ n. if bytes_eq name.now.items n then Some id else id_in self.old n) }
        ensures names { name_in I.eq self.new ≡ (λ x. if I.eq id x then name.now.items else name_in I.eq self.old x) }
    {
        let _ = self.ids.insert(copy_of(name), id);
        let _ = self.names.insert(id, copy_of(name));
    }

    /// Frees the name of this id.
    pub(crate) fn remove(&mut self, name: &Name, id: I)
        ensures ids { id_in self.new ≡ (λ n. if bytes_eq name.now.items n then None else id_in self.old n) }
        ensures names { name_in I.eq self.new ≡ (λ x. if I.eq id x then [] else name_in I.eq self.old x) }
        ensures room { HasRoom self.old → HasRoom self.new }
    {
        self.ids.swap_remove(name);
        self.names.swap_remove(&id);
    }
}

/// A copy of the name.
fn copy_of(name: &Name) -> Name
    ensures { result.items ≡ name.now.items }
{
    let mut copy = Name::new();
    let _ = copy.try_extend_from_slice(name.as_slice());
    copy
}
