//! The books of the living editions.

ghost use Rattle.std.specs.Prelude.{◌≡◌, [], ◌∷◌, ◌++◌, ◌<◌, filter, All, IfOk, OnOk, OnErr};
ghost use Rattle.std.specs.Option.{option_copied};
ghost use Rattle.ebr_ast.specs.Views.{IsInOrder};
ghost use Rattle.ebr_cross.specs.Catalogue.{Lists};
ghost use Rattle.ebr_cross.specs.Records.{with_record};
ghost use Rattle.ebr_editions.specs.Editions.{leaf, IsLine};
ghost use Rattle.ebr_units.specs.Living.{AreCurrent, ForBooks, ForBooksBefore, ForSeen, Gives, GivesLiving, IsKept, Keeps, ServeAll, served_in, view_in};
ghost use Rattle.ebr_units.specs.inside.Books.{is_up_to};

use crate::book::Book;
use ebr_ast::EditionView;
use ebr_base::{Class, CloneIn, EditionNo, Name, NoMemory, Shared, Stamp};
use ebr_code::{CodeBook, Unit};
use ebr_compile::Steps;
use ebr_cross::{Catalogue, CatalogueRecord, view_of};
use ebr_editions::Chain;
use std::alloc::Global;
use std::marker::{Brand, Model};
use std::sync::ledger::{Blank, Ledger};

/// The compiled units of the living editions, in one book for each edition. A book is made when it is asked for, and kept
/// until a definition changes what its edition sees. Contracts see what the editions see whose books are kept.
///
/// The kept books are always current, also after a want of memory: then the call can be made again. As a `CodeBook` it
/// answers in the editions whose books are kept, which after `make_all` are all that live.
#[derive(Drop)]
pub struct Units {
    books: Vec<Shared<Book>>,
}

impl Model for Units {
    ghost use Rattle.std.specs.Coded.{coded_list};
    ghost use Rattle.std.specs.Prelude.{List};
    ghost use Rattle.ebr_ast.specs.declared.view.EditionView.{EditionView as Sees};
    ghost use Rattle.ebr_ast.specs.contracts.view.EditionView as e;

    ghost Value = { List Sees };

    ghost coded = { coded_list e.the_row.coded };

    ghost view = { λ u. u.books.items };
}

impl Units {
    /// No book is kept yet, whatever the catalogue is. It takes no memory.
    pub fn new(alloc: Global) -> Units
        ensures empty { result ≡ [] }
        ensures current { (c : Lists) → AreCurrent c result }
    {
        Units {
            books: Vec::new(alloc),
        }
    }

    /// Takes notice of a definition: `c` is the catalogue after it, and `made` the record of it. Books of editions that
    /// may see something else now are dropped; books that were handed out stay as they are. It takes no memory.
    pub fn after_ddl(&mut self, c: &Catalogue, made: &CatalogueRecord)
        ensures { ForBooksBefore c.now self.old made.now (λ lists. AreCurrent (with_record lists made.now) self.new) }
    {
        match made {
            CatalogueRecord::EditionGone(_) => {}
            CatalogueRecord::Default(_) => {}
            CatalogueRecord::Edition { .. } => self.keep_before(&c.chain, c.chain.leaf()),
            CatalogueRecord::Object(object) => {
                self.keep_before(&c.chain, object.get().stamp.edition)
            }
            CatalogueRecord::ObjectGone { edition, .. } => self.keep_before(&c.chain, *edition),
            CatalogueRecord::PackageGone { edition, .. } => self.keep_before(&c.chain, *edition),
            CatalogueRecord::Table(_)
            | CatalogueRecord::Column { .. }
            | CatalogueRecord::TableGone(_) => self.drop_all(),
        }
    }

    /// The book of an edition, None exactly where that doesn't live. `c` is the catalogue as it is. Where the book isn't kept
    /// yet, each valid unit that the edition sees is compiled.
    pub fn book(
        &mut self,
        alloc: Global,
        c: &Catalogue,
        e: EditionNo,
    ) -> Result<Option<Shared<Book>>, NoMemory>
        requires { IsKept c.now }
        ensures { ForBooks c.now self.old (λ lists. GivesLiving lists e self.old result self.new) }
    {
        if !c.chain.lives(e) {
            return Ok(None);
        }
        let book = self.living_book(alloc, c, e)?;
        Ok(Some(book))
    }

    /// The book of an edition from all that it sees, for a caller that has this: the same that `book` answers.
    pub fn book_of(
        &mut self,
        alloc: Global,
        seen: &Shared<EditionView>,
    ) -> Result<Shared<Book>, NoMemory>
        requires { IsInOrder seen.now }
        ensures { ForSeen seen.now self.old (λ c. Gives c seen.now.edition self.old result self.new) }
    {
        if let Some(book) = self.found(seen.get().edition) {
            return book.clone_in(alloc);
        }
        let copy = seen.clone_in(alloc)?;
        self.add(alloc, copy)
    }

    /// Makes the books of living editions that aren't kept yet, so that as a `CodeBook` it answers in each of them.
    pub fn make_all(&mut self, alloc: Global, c: &Catalogue) -> Result<(), NoMemory>
        requires { IsKept c.now }
        ensures serve { ForBooks c.now self.old (λ lists. OnOk result (ServeAll lists self.new)) }
        ensures keeps { ForBooks c.now self.old (λ lists. Keeps lists self.old self.new) }
    {
        for before in 0..last_living(&c.chain) {
            self.book(alloc, c, EditionNo(before + 1))?;
        }
        Ok(())
    }

    /// The book of a living edition.
    fn living_book(
        &mut self,
        alloc: Global,
        c: &Catalogue,
        e: EditionNo,
    ) -> Result<Shared<Book>, NoMemory>
        requires { IsKept c.now }
        ensures { ForBooks c.now self.old (λ lists. Gives lists e self.old result self.new) }
    {
        if let Some(book) = self.found(e) {
            return book.clone_in(alloc);
        }
        let seen = Shared::new(alloc, view_of(c, alloc, e)?)?;
        self.add(alloc, seen)
    }

    /// Makes a book and keeps it.
    fn add(&mut self, alloc: Global, seen: Shared<EditionView>) -> Result<Shared<Book>, NoMemory>
        requires { IsInOrder seen }
        ensures book { IfOk result (λ book. book ≡ seen) }
        ensures added { OnOk result (self.new ≡ self.old ++ seen ∷ []) }
        ensures unchanged { OnErr result (self.new ≡ self.old) }
    {
        let book = uncounted::<Brand>(alloc, seen, Blank::new(1))?;
        self.books.push(book.clone_in(alloc)?)?;
        Ok(book)
    }

    /// The book of an edition, where it is kept.
    fn found(&self, e: EditionNo) -> Option<&Shared<Book>>
        ensures { option_copied result ≡ view_in e self.now }
    {
        book_in(self.books.as_slice(), e)
    }

    /// Keeps the books of the editions that were made before an edition. Their lines don't come to it.
    fn keep_before(&mut self, chain: &Chain, e: EditionNo)
        ensures before { All (λ v. v.edition.0 < e.0) self.new }
        ensures current { (c : Lists) → AreCurrent c self.old → AreCurrent c self.new }
        ensures line { IsLine chain.now }
    {
        match chain.parent(e) {
            Some(parent) => self.keep_up_to(parent),
            None => self.drop_all(),
        }
    }

    fn keep_up_to(&mut self, e: EditionNo)
        ensures { self.new ≡ filter (is_up_to e) self.old }
    {
        keep_up_to(&mut self.books, e);
    }

    fn drop_all(&mut self)
        ensures { self.new ≡ [] }
    {
        self.books.clear();
    }
}

impl CodeBook for Units {
    ghost answers = { λ views e. served_in views e };

    fn unit(&self, e: EditionNo, class: Class, name: &Name) -> Option<&Shared<Unit>> {
        match self.found(e) {
            Some(book) => book.get().unit(e, class, name),
            None => None,
        }
    }

    fn stamp(&self, e: EditionNo, class: Class, name: &Name) -> Option<Stamp> {
        match self.found(e) {
            Some(book) => book.get().stamp(e, class, name),
            None => None,
        }
    }

    fn objects(&self, e: EditionNo) -> usize {
        match self.found(e) {
            Some(book) => book.get().objects(e),
            None => 0,
        }
    }
}

fn book_in(books: &[Shared<Book>], e: EditionNo) -> Option<&Shared<Book>>
    ensures { option_copied result ≡ view_in e books.now }
{
    books.iter().find(|book| number_of(book) == e.0)
}

fn keep_up_to(books: &mut Vec<Shared<Book>>, e: EditionNo)
    ensures { books.new.items ≡ filter (is_up_to e) books.old.items }
{
    books.retain(|book| number_of(book) <= e.0);
}

/// The number of the leaf, the living edition that was made last.
fn last_living(chain: &Chain) -> u32
    ensures leaf { result ≡ (leaf chain.now.made).0 }
    ensures line { IsLine chain.now }
{
    // That editions are numbered in the order of creation is a clause of this call.
    let _default = chain.default();
    chain.leaf().0
}

/// The number of a book's edition.
fn number_of(book: &Shared<Book>) -> u32
    ensures { result ≡ book.now.edition.0 }
{
    book.get().view().get().edition.0
}

/// A new book. Nobody reads how many units it compiles.
fn uncounted<L: Ledger>(
    alloc: Global,
    seen: Shared<EditionView>,
    blank: Blank,
) -> Result<Shared<Book>, NoMemory>
    requires order { IsInOrder seen }
    requires name { blank.name ≡ L.name }
    requires parts { blank.parts ≡ L.parts }
    requires some { 0 < blank.parts }
    ensures { IfOk result (λ book. book ≡ seen) }
{
    let (counted, share) = blank.open::<L>();
    let mut steps = Steps::new(counted, share);
    let book = Book::new(alloc, seen, &mut steps)?;
    Ok(Shared::new(alloc, book)?)
}
