//! Savepoints and marks: what a transaction can go back to.

ghost use Rattle.std.specs.Prelude.{◌≡◌, [], find, length, take, ◌+◌, IfOk, OnOk, OnErr};
ghost use Rattle.std.specs.List.{position_or_len};
ghost use Rattle.std.specs.Arc.{arc_value};
ghost use Rattle.ebr_tx.specs.Savepoints.{is_savepoint, lengths_of, savepoints_to};
ghost use Rattle.ebr_tx.specs.inside.Marked.{held_by, with_last, IsPut};

use ebr_base::{CloneIn, Name, NoMemory};
use indexmap::IndexMap;
use std::alloc::Global;
use std::marker::Model;
use std::sync::Arc;

/// A name, with the numbers of changes and of locks that there were.
#[derive(Debug, Drop)]
pub struct Savepoint {
    pub name: Name,
    pub changes: u32,
    pub locks: u32,
}

/// Savepoints by their names, in the order in which they were made or moved. Contracts see the list.
#[derive(Drop)]
struct Named {
    items: IndexMap<Name, (u32, u32)>,
}

impl Model for Named {
    ghost use Rattle.std.specs.Prelude.{List};
    ghost use Rattle.ebr_tx.specs.declared.savepoints.Savepoint.{Savepoint};
    ghost use Rattle.ebr_tx.specs.inside.Marked.{savepoints_of};

    ghost Value = { List Savepoint };

    ghost view = { λ s. savepoints_of s.items.entries };
}

impl Named {
    /// How many there are.
    fn len(&self) -> usize
        ensures { result ≡ length self.now }
    {
        self.items.len()
    }

    /// The place of the savepoint of a name, or how many there are.
    fn place(&self, name: &Name) -> usize
        ensures { result ≡ position_or_len (is_savepoint name.now) self.now }
    {
        match self.items.get_index_of(name) {
            Some(at) => at,
            None => self.items.len(),
        }
    }

    /// The numbers at the savepoint of a name among the first `n`.
    fn lengths_in(&self, n: usize, name: &Name) -> Option<(u32, u32)>
        ensures { result ≡ lengths_of (find (is_savepoint name.now) (take n self.now)) }
    {
        if self.place(name) < n {
            return self.items.get(name).copied();
        }
        None
    }

    /// How many of the first `n` are left without those after the one of a name.
    fn kept_to(&self, n: usize, name: &Name) -> usize
        ensures { take result self.now ≡ savepoints_to name.now (take n self.now) }
    {
        let at = self.place(name);
        if at < n {
            return at + 1;
        }
        n
    }

    /// A copy of the first `n`.
    fn first(&self, alloc: Global, n: usize) -> Result<Named, NoMemory>
        ensures { IfOk result (λ copy. copy ≡ take n self.now) }
    {
        Ok(Named {
            items: copies(alloc, &self.items, n)?,
        })
    }

    /// Takes out those behind the first `n`.
    fn cut(&mut self, n: usize)
        ensures { self.new ≡ take n self.old }
    {
        self.items.truncate(n);
    }

    /// Adds a savepoint at the end, in place of one of the same name. An `Err` changes nothing.
    fn put(&mut self, savepoint: Savepoint) -> Result<(), NoMemory>
        ensures ok { OnOk result (self.new ≡ with_last savepoint self.old) }
        ensures err { OnErr result (self.new ≡ self.old) }
    {
        self.items.reserve(1)?;
        let Savepoint {
            name,
            changes,
            locks,
        } = savepoint;
        self.items.shift_remove(&name);
        self.items.insert(name, (changes, locks)).unwrap();
        Ok(())
    }
}

/// The savepoints of a transaction or of a mark, in the order in which they were made or moved. Contracts see the list. A mark
/// shares them with its transaction: what the transaction went back over stays behind the first `count`, and one that is added
/// while they are shared is added to a copy.
#[derive(Drop)]
pub struct Savepoints {
    alloc: Global,
    named: Option<Arc<Named, Global>>,
    count: usize,
}

impl Model for Savepoints {
    ghost use Rattle.std.specs.Prelude.{List, take};
    ghost use Rattle.ebr_tx.specs.declared.savepoints.Savepoint.{Savepoint};
    ghost use Rattle.ebr_tx.specs.inside.Marked.{held_by};

    ghost Value = { List Savepoint };

    ghost view = { λ s. take s.count (held_by s.named) };
}

impl Savepoints {
    /// No savepoint, which takes no memory.
    pub fn new(alloc: Global) -> Savepoints
        ensures { result ≡ [] }
    {
        Savepoints {
            alloc,
            named: None,
            count: 0,
        }
    }

    /// Another holder of the same savepoints.
    pub fn clone_in(&self, alloc: Global) -> Result<Savepoints, NoMemory>
        ensures { IfOk result (λ copy. copy ≡ self.now) }
    {
        Ok(Savepoints {
            alloc,
            named: shared(&self.named)?,
            count: self.count,
        })
    }

    /// The numbers of changes and of locks at the savepoint of a name.
    pub fn lengths_at(&self, name: &Name) -> Option<(u32, u32)>
        ensures { result ≡ lengths_of (find (is_savepoint name.now) self.now) }
    {
        match &self.named {
            Some(named) => named.lengths_in(self.count, name),
            None => None,
        }
    }

    /// Takes out the savepoints after the one of a name. It takes no memory.
    pub fn cut_after(&mut self, name: &Name)
        ensures { self.new ≡ savepoints_to name.now self.old }
    {
        self.count = kept_to(&self.named, self.count, name);
    }

    /// Adds a savepoint at the end, in place of one of the same name. An `Err` changes nothing.
    pub fn put(&mut self, savepoint: Savepoint) -> Result<(), NoMemory>
        ensures ok { OnOk result (self.new ≡ with_last savepoint self.old) }
        ensures err { OnErr result (self.new ≡ self.old) }
    {
        let Some(savepoint) = put_alone(&mut self.named, self.count, savepoint)? else {
            self.count = len_of(&self.named);
            return Ok(());
        };
        let named = with_one(self.alloc, &self.named, self.count, savepoint)?;
        self.count = named.len();
        self.named = Some(named);
        Ok(())
    }
}

/// What a transaction was at a moment: how many commits it began at, if it had begun, its numbers of changes and of
/// locks, and its savepoints.
#[derive(Drop)]
pub struct TxMark {
    pub begun: Option<u32>,
    pub changes: u32,
    pub locks: u32,
    pub savepoints: Savepoints,
}

/// Another holder of the same names.
fn shared(named: &Option<Arc<Named, Global>>) -> Result<Option<Arc<Named, Global>>, NoMemory>
    ensures { IfOk result (λ copy. held_by copy ≡ held_by named.now) }
{
    match named {
        Some(named) => Ok(Some(Arc::try_clone(named)?)),
        None => Ok(None),
    }
}

/// How many of the first `n` are left without those after the one of a name.
fn kept_to(named: &Option<Arc<Named, Global>>, n: usize, name: &Name) -> usize
    ensures { take result (held_by named.now) ≡ savepoints_to name.now (take n (held_by named.now)) }
{
    match named {
        Some(named) => named.kept_to(n, name),
        None => 0,
    }
}

fn len_of(named: &Option<Arc<Named, Global>>) -> usize
    ensures { result ≡ length (held_by named.now) }
{
    match named {
        Some(named) => named.len(),
        None => 0,
    }
}

/// Adds a savepoint behind the first `count`, in place of one of the same name, where nobody else holds these names; else it is
/// handed back. An `Err` changes nothing of the first `count`.
fn put_alone(
    named: &mut Option<Arc<Named, Global>>,
    count: usize,
    savepoint: Savepoint,
) -> Result<Option<Savepoint>, NoMemory>
    ensures ok { IfOk result (IsPut savepoint count (held_by named.old) (held_by named.new)) }
    ensures err { OnErr result (take count (held_by named.new) ≡ take count (held_by named.old)) }
{
    match named {
        Some(named) => put_where_alone(named, count, savepoint),
        None => Ok(Some(savepoint)),
    }
}

fn put_where_alone(
    named: &mut Arc<Named, Global>,
    count: usize,
    savepoint: Savepoint,
) -> Result<Option<Savepoint>, NoMemory>
    ensures ok { IfOk result (IsPut savepoint count (arc_value named.old) (arc_value named.new)) }
    ensures err { OnErr result (take count (arc_value named.new) ≡ take count (arc_value named.old)) }
{
    let Some(named) = Arc::get_mut(named) else {
        return Ok(Some(savepoint));
    };
    named.cut(count);
    named.put(savepoint)?;
    Ok(None)
}

/// A copy of the first `count`, with one more savepoint.
fn with_one(
    alloc: Global,
    named: &Option<Arc<Named, Global>>,
    count: usize,
    savepoint: Savepoint,
) -> Result<Arc<Named, Global>, NoMemory>
    ensures { IfOk result (λ more. arc_value more ≡ with_last savepoint (take count (held_by named.now))) }
{
    let mut more = first_of(alloc, named, count)?;
    more.put(savepoint)?;
    Ok(Arc::new(alloc, more)?)
}

fn first_of(
    alloc: Global,
    named: &Option<Arc<Named, Global>>,
    count: usize,
) -> Result<Named, NoMemory>
    ensures { IfOk result (λ copy. copy ≡ take count (held_by named.now)) }
{
    match named {
        Some(named) => named.first(alloc, count),
        None => Ok(Named {
            items: IndexMap::new(alloc),
        }),
    }
}

/// Copies of the first `n` entries.
fn copies(
    alloc: Global,
    items: &IndexMap<Name, (u32, u32)>,
    n: usize,
) -> Result<IndexMap<Name, (u32, u32)>, NoMemory>
    ensures { IfOk result (λ copies. copies.entries ≡ take n items.now.entries) }
{
    let mut copies = IndexMap::new(alloc);
    for at in 0..n {
        copy_one(alloc, &mut copies, items, at)?;
    }
    Ok(copies)
}

/// Adds a copy of the savepoint at a place to copies of those before it.
fn copy_one(
    alloc: Global,
    copies: &mut IndexMap<Name, (u32, u32)>,
    items: &IndexMap<Name, (u32, u32)>,
    at: usize,
) -> Result<(), NoMemory>
    requires { copies.old.entries ≡ take at items.now.entries }
    ensures { OnOk result (copies.new.entries ≡ take (at + 1) items.now.entries) }
{
    // With the number comes that no two have one name.
    let _ = items.len();
    let Some((name, lengths)) = items.get_index(at) else {
        return Ok(());
    };
    copies.insert(name.clone_in(alloc)?, (lengths.0, lengths.1))?;
    Ok(())
}
