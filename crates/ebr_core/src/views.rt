//! What the editions see.

ghost use Rattle.std.specs.Prelude.{◌≡◌, [], IfOk};
ghost use Rattle.std.specs.Option.{option_copied};
ghost use Rattle.ebr_cross.specs.Catalogue.{IsViewOf, Lists};
ghost use Rattle.ebr_cross.specs.Records.{ForChanged, with_record};
ghost use Rattle.ebr_units.specs.Living.{AreCurrent, ForBooks, ForBooksBefore, view_in};

use ebr_ast::EditionView;
use ebr_base::{CloneIn, EditionNo, NoMemory, Shared};
use ebr_cross::{Catalogue, CatalogueRecord, view_after, view_of};
use std::alloc::Global;
use std::marker::Model;

/// What editions see, kept from one ask to the next, so that a view is made once and shared. Contracts see the views.
///
/// The kept views are always current, also after a want of memory: then the call can be made again.
#[derive(Drop)]
pub struct Views {
    seen: Vec<Shared<EditionView>>,
}

impl Model for Views {
    ghost use Rattle.std.specs.Coded.{coded_list};
    ghost use Rattle.std.specs.Prelude.{List};
    ghost use Rattle.ebr_ast.specs.declared.view.EditionView.{EditionView as Sees};
    ghost use Rattle.ebr_ast.specs.contracts.view.EditionView as e;

    ghost Value = { List Sees };

    ghost coded = { coded_list e.the_row.coded };

    ghost view = { λ v. v.seen.items };
}

impl Views {
    /// No view is kept yet, whatever the catalogue is. It takes no memory.
    pub fn new(alloc: Global) -> Views
        ensures empty { result ≡ [] }
        ensures current { (c : Lists) → AreCurrent c result }
    {
        Views {
            seen: Vec::new(alloc),
        }
    }

    /// All that an edition sees. `c` is the catalogue as it is. Where the view isn't kept yet, it is made and kept.
    pub fn of(
        &mut self,
        alloc: Global,
        c: &Catalogue,
        e: EditionNo,
    ) -> Result<Shared<EditionView>, NoMemory>
        ensures view { ForBooks c.now self.old (λ lists. IfOk result (λ v. IsViewOf lists e v)) }
        ensures current { ForBooks c.now self.old (λ lists. AreCurrent lists self.new) }
    {
        if let Some(view) = self.found(e) {
            return view.clone_in(alloc);
        }
        let view = Shared::new(alloc, view_of(c, alloc, e)?)?;
        self.add(view.clone_in(alloc));
        Ok(view)
    }

    /// Takes notice of a definition: `c` is the catalogue after it, and `made` the record of it. Each view goes over to what
    /// its edition sees now. It is dropped where its edition doesn't live any more, and where there is no memory for it: then
    /// it is made anew when it is asked for.
    pub fn after(&mut self, alloc: Global, c: &Catalogue, made: &CatalogueRecord)
        ensures { ForBooksBefore c.now self.old made.now (λ lists. AreCurrent (with_record lists made.now) self.new) }
    {
        let mut next = Views::new(alloc);
        for view in self.seen.as_slice() {
            next.follow(alloc, c, view, made);
        }
        *self = next;
    }

    /// Keeps what becomes of a view by a definition, where its edition still lives.
    fn follow(
        &mut self,
        alloc: Global,
        c: &Catalogue,
        view: &Shared<EditionView>,
        made: &CatalogueRecord,
    )
        ensures { ForChanged c.now view.now made.now (λ lists. AreCurrent (with_record lists made.now) self.old → AreCurrent (with_record lists made.now) self.new) }
    {
        if !c.chain.lives(view.get().edition) {
            return;
        }
        self.add(view_after(c, alloc, view, made));
    }

    /// The view of an edition, where it is kept.
    fn found(&self, e: EditionNo) -> Option<&Shared<EditionView>>
        ensures { option_copied result ≡ view_in e self.now }
    {
        view_in(self.seen.as_slice(), e)
    }

    /// Keeps a view, where there is memory for it.
    fn add(&mut self, view: Result<Shared<EditionView>, NoMemory>)
        ensures { (c : Lists) → AreCurrent c self.old → IfOk view (λ v. IsViewOf c v.edition v) → AreCurrent c self.new }
    {
        match view {
            Ok(view) => {
                let _pushed = self.seen.push(view);
            }
            Err(NoMemory) => {}
        }
    }
}

fn view_in(views: &[Shared<EditionView>], e: EditionNo) -> Option<&Shared<EditionView>>
    ensures { option_copied result ≡ view_in e views.now }
{
    views.iter().find(|view| view.get().edition.0 == e.0)
}
