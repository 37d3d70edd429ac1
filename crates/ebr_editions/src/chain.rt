//! The line of editions.

ghost use Rattle.std.specs.Prelude.{◌≡◌, ◌≢◌, ◌<◌, [], ◌∷◌, ◌++◌, Some, None, Ok, Err, true, length, slice_get, IfOk, IfErr, IfSome, OnOk, OnErr, codes};
ghost use Rattle.std.specs.Option.{option_copied};
ghost use Rattle.ebr_base.specs.Answers.{Answers};
ghost use Rattle.ebr_editions.specs.Editions.{IsLine, first_editions, edition_of, living, is_living, parent_of, name_of, edition_named, child_of, leaf, named_parent, next_edition, new_edition, create_answer, with_edition, drop_answer, without_edition, default_answer, with_default, max_editions};

use crate::entry::EditionEntry;
use ebr_base::{CloneIn, Code, EditionNo, MAX_COUNT, Name, NoMemory, Stop};
use indexmap::IndexMap;
use std::alloc::Global;
use std::marker::Model;

/// The name of the first edition.
const FIRST_EDITION: &[u8] = b"ORA$BASE";

/// The most editions that live at a time.
const MAX_EDITIONS: usize = 256;

/// All editions ever made, and the default edition. Contracts see both.
///
/// Those that live form a line: each is the child of the one before it.
#[derive(Drop)]
pub struct Chain {
    alloc: Global,
    made: Vec<EditionEntry>,
    /// The living editions by name, in the order of creation, so the last one is the leaf.
    living: IndexMap<Name, EditionNo>,
    default: EditionNo,
}

impl Model for Chain {
    ghost use Rattle.ebr_editions.specs.Editions.{Editions};
    ghost use Rattle.ebr_editions.specs.inside.Chain.{IsIndexed};

    ghost Value = { Editions };

    ghost view = { λ c. record { made = c.made.items; default = c.default } };

    ghost invariant = { λ c. IsIndexed c.made.items c.living.entries c.default };
}

impl Chain {
    /// A chain of the one edition ORA$BASE, number 1, which is the default.
    pub fn new(alloc: Global) -> Result<Chain, NoMemory>
        ensures { IfOk result (λ chain. chain ≡ first_editions) }
    {
        let name = first_name(alloc)?;
        let mut living = IndexMap::new(alloc);
        living.insert(name.clone_in(alloc)?, EditionNo(1))?;
        let mut made = Vec::new(alloc);
        made.push(EditionEntry {
            number: EditionNo(1),
            name,
            parent: None,
            living: true,
        })?;
        Ok(Chain {
            alloc,
            made,
            living,
            default: EditionNo(1),
        })
    }

    /// The number of the living edition of a name.
    pub fn number(&self, n: &Name) -> Option<EditionNo>
        ensures number { result ≡ edition_named self.now.made n.now }
        ensures lives { IfSome result (λ e. is_living self.now.made e ≡ true) }
    {
        self.living.get(n).copied()
    }

    /// The default edition, which lives.
    pub fn default(&self) -> EditionNo
        ensures default { result ≡ self.now.default }
        ensures line { IsLine self.now }
    {
        self.default
    }

    /// The end of the line: the living edition that was made last.
    pub fn leaf(&self) -> EditionNo
        ensures leaf { result ≡ leaf self.now.made }
        ensures lives { is_living self.now.made result ≡ true }
    {
        match self.living.last() {
            Some((_, e)) => *e,
            None => EditionNo(1),
        }
    }

    fn entry(&self, e: EditionNo) -> Option<&EditionEntry>
        ensures entry { option_copied result ≡ edition_of self.now.made e }
        ensures line { IsLine self.now }
    {
        let made = &self.made;
        let at = e.0.checked_sub(1)?;
        entry_at(made, at as usize)
    }

    /// The edition that an edition, living or gone, was made as a child of.
    pub fn parent(&self, e: EditionNo) -> Option<EditionNo>
        ensures parent { result ≡ parent_of self.now.made e }
        ensures smaller { IfSome result (λ p. p.0 < e.0) }
        ensures line { IsLine self.now }
    {
        self.entry(e)?.parent
    }

    /// The name of an edition, living or gone.
    pub fn name(&self, e: EditionNo) -> Option<&Name>
        ensures { option_copied result ≡ name_of self.now.made e }
    {
        Some(&self.entry(e)?.name)
    }

    /// Whether an edition lives.
    pub fn lives(&self, e: EditionNo) -> bool
        ensures { result ≡ is_living self.now.made e }
    {
        match self.entry(e) {
            Some(entry) => entry.living,
            None => false,
        }
    }

    /// The living child of an edition.
    pub fn child(&self, e: EditionNo) -> Option<EditionNo>
        ensures { result ≡ child_of self.now.made e }
    {
        let living = &self.living;
        if !self.lives(e) {
            return None;
        }
        let at = living.get_index_of(self.name(e)?)?;
        if self.count() <= at + 1 {
            return None;
        }
        let (_, child) = living.get_index(at + 1)?;
        Some(*child)
    }

    /// Makes an edition, as the child of the parent or else of the leaf.
    ///
    /// Refusals, in this order: EBR-0031 where a living edition has the name, ORA-38802 where none has the parent's
    /// name, EBR-0030 where the parent has a living child, EBR-0035 where 256 editions live. It finds no memory where
    /// 4,294,967,295 editions were made. An `Err` changes nothing.
    pub fn create(&mut self, n: Name, parent: Option<&Name>) -> Result<EditionNo, Stop>
        ensures answer { Answers result (create_answer self.old.made n (option_copied parent.entry)) }
        ensures made { OnOk result (self.new ≡ with_edition self.old n (option_copied parent.entry)) }
        ensures unchanged { OnErr result (self.new ≡ self.old) }
    {
        match self.place_for(&n, parent) {
            Ok(p) => Ok(self.add(n, p)?),
            Err(code) => Err(Stop::Raised(code)),
        }
    }

    /// The edition below which `create` would make one of this name, or the code by which it would refuse.
    pub fn place_for(&self, n: &Name, parent: Option<&Name>) -> Result<EditionNo, Code>
        ensures refused { IfErr result (λ code. create_answer self.now.made n.now (option_copied parent.entry) ≡ Err code) }
        ensures accepted { OnOk result (create_answer self.now.made n.now (option_copied parent.entry) ≡ Ok (next_edition self.now.made)) }
        ensures parent { IfOk result (λ p. named_parent self.now.made (option_copied parent.entry) ≡ Some p) }
        ensures lives { IfOk result (λ p. is_living self.now.made p ≡ true) }
        ensures childless { IfOk result (λ p. child_of self.now.made p ≡ None) }
        ensures free { OnOk result (edition_named self.now.made n.now ≡ None) }
        ensures room { OnOk result (length (living self.now.made) < max_editions) }
    {
        if self.number(n).is_some() {
            return Err(Code::Ebr(31));
        }
        let Some(p) = self.parent_named(parent) else {
            return Err(Code::Ora(38802));
        };
        if self.child(p).is_some() {
            return Err(Code::Ebr(30));
        }
        if self.count() >= MAX_EDITIONS {
            return Err(Code::Ebr(35));
        }
        Ok(p)
    }

    /// The living edition of the parent's name, or else the leaf.
    fn parent_named(&self, parent: Option<&Name>) -> Option<EditionNo>
        ensures value { result ≡ named_parent self.now.made (option_copied parent.entry) }
        ensures lives { IfSome result (λ p. is_living self.now.made p ≡ true) }
    {
        match parent {
            Some(name) => self.number(name),
            None => Some(self.leaf()),
        }
    }

    /// How many editions live.
    pub fn count(&self) -> usize
        ensures { result ≡ length (living self.now.made) }
    {
        self.living.len()
    }

    /// Adds a child of the leaf, under a name that no living edition has. It finds no memory where 4,294,967,295 editions were
    /// made. An `Err` changes nothing.
    pub fn add(&mut self, n: Name, p: EditionNo) -> Result<EditionNo, NoMemory>
        requires lives { is_living self.old.made p ≡ true }
        requires childless { child_of self.old.made p ≡ None }
        requires free { edition_named self.old.made n ≡ None }
        requires room { length (living self.old.made) < max_editions }
        ensures number { IfOk result (λ e. e ≡ next_edition self.old.made) }
        ensures made { OnOk result (self.new ≡ record self.old { made = self.old.made ++ new_edition self.old.made n (Some p) ∷ [] }) }
        ensures unchanged { OnErr result (self.new ≡ self.old) }
    {
        if self.made.len() >= MAX_COUNT {
            return Err(NoMemory);
        }
        self.made.reserve(1)?;
        let number = EditionNo(self.made.len() as u32 + 1);
        self.living.insert(n.clone_in(self.alloc)?, number)?;
        self.made
            .push(EditionEntry {
                number,
                name: n,
                parent: Some(p),
                living: true,
            })
            .unwrap();
        Ok(number)
    }

    /// Drops an edition, which has to be the leaf and may not be the default.
    ///
    /// Refusals: ORA-38802 where no living edition has the name, EBR-0032 where it has a living child.
    pub fn drop_leaf(&mut self, n: &Name) -> Result<EditionNo, Code>
        requires { edition_named self.old.made n.now ≡ Some self.old.default → child_of self.old.made self.old.default ≢ None }
        ensures answer { result ≡ drop_answer self.old.made n.now }
        ensures gone { IfOk result (λ e. self.new ≡ without_edition self.old e) }
        ensures unchanged { OnErr result (self.new ≡ self.old) }
    {
        let Some(e) = self.number(n) else {
            return Err(Code::Ora(38802));
        };
        if self.child(e).is_some() {
            return Err(Code::Ebr(32));
        }
        self.remove_leaf(e);
        Ok(e)
    }

    /// Drops the leaf, which isn't the default.
    pub fn remove_leaf(&mut self, e: EditionNo)
        requires lives { is_living self.old.made e ≡ true }
        requires childless { child_of self.old.made e ≡ None }
        requires other { e ≢ self.old.default }
        ensures { self.new ≡ without_edition self.old e }
    {
        self.living.pop();
        self.made[e.0 as usize - 1].living = false;
    }

    /// Makes the living edition of a name the default; ORA-38802 where there is none, and then nothing changes.
    pub fn set_default(&mut self, n: &Name) -> Result<(), Code>
        ensures answer { result ≡ default_answer self.old.made n.now }
        ensures editions { self.new ≡ with_default self.old n.now }
        ensures unchanged { OnErr result (self.new ≡ self.old) }
    {
        match self.number(n) {
            Some(e) => {
                self.make_default(e);
                Ok(())
            }
            None => Err(Code::Ora(38802)),
        }
    }

    /// Makes an edition that lives the default.
    pub fn make_default(&mut self, e: EditionNo)
        requires { is_living self.old.made e ≡ true }
        ensures { self.new ≡ record self.old { default = e } }
    {
        self.default = e;
    }
}

fn entry_at(made: &[EditionEntry], at: usize) -> Option<&EditionEntry>
    ensures { option_copied result ≡ slice_get made.now at }
{
    made.get(at)
}

/// The name of the first edition.
fn first_name(alloc: Global) -> Result<Name, NoMemory>
    ensures { IfOk result (λ name. name ≡ codes "ORA$BASE") }
{
    match Name::of(alloc, FIRST_EDITION)? {
        Some(name) => Ok(name),
        None => unreachable!(),
    }
}
