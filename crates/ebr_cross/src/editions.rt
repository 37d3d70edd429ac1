//! Definitions of editions.

ghost use Rattle.std.specs.Prelude.{◌≡◌, ◌≢◌, None, true, IfOk, IfNone};
ghost use Rattle.std.specs.Option.{option_copied};
ghost use Rattle.std.specs.List.{list_any};
ghost use Rattle.ebr_base.specs.Answers.{Answers};
ghost use Rattle.ebr_editions.specs.Editions.{child_of, drop_answer, is_edition, is_living};
ghost use Rattle.ebr_cross.specs.Catalogue.{ForLists};
ghost use Rattle.ebr_cross.specs.Definitions.{recording, has_objects};
ghost use Rattle.ebr_cross.specs.Following.{MayFollow};
ghost use Rattle.ebr_cross.specs.Definitions as spec;
ghost use Rattle.ebr_cross.specs.declared.record.CatalogueRecord.TheVariants as made;

use crate::catalogue::Catalogue;
use crate::record::CatalogueRecord;
use ebr_base::{CloneIn, Code, EditionNo, Name, Stop};
use std::alloc::Global;

impl Catalogue {
    /// The plan of CREATE EDITION. Refusals: those of `Chain::place_for`.
    pub(crate) fn plan_edition(
        &self,
        alloc: Global,
        name: &Name,
        parent: Option<&Name>,
    ) -> Result<CatalogueRecord, Stop>
        ensures answer { ForLists self.now (λ c. Answers result (spec.create_edition c name.now (option_copied parent.entry))) }
        ensures follows { IfOk result (λ r. MayFollow self.now r) }
    {
        match self.chain.place_for(name, parent) {
            Ok(parent) => Ok(CatalogueRecord::Edition {
                name: name.clone_in(alloc)?,
                parent,
            }),
            Err(code) => Err(Stop::Raised(code)),
        }
    }

    /// The plan of DROP EDITION. Refusals: those of `leaf_to_drop`.
    pub(crate) fn plan_edition_drop(
        &self,
        sessions: &[EditionNo],
        name: &Name,
        cascade: bool,
    ) -> Result<CatalogueRecord, Stop>
        ensures answer { ForLists self.now (λ c. Answers result (spec.drop_edition c sessions.now name.now cascade)) }
        ensures follows { IfOk result (λ r. MayFollow self.now r) }
    {
        match self.leaf_to_drop(sessions, name, cascade) {
            Ok(e) => Ok(CatalogueRecord::EditionGone(e)),
            Err(code) => Err(Stop::Raised(code)),
        }
    }

    /// The edition that DROP EDITION drops. Refusals: those of `Chain::drop_leaf`, EBR-0033 where it is the default or a
    /// session's edition, ORA-38811 where an object is actual in it and CASCADE isn't there.
    fn leaf_to_drop(
        &self,
        sessions: &[EditionNo],
        name: &Name,
        cascade: bool,
    ) -> Result<EditionNo, Code>
        ensures answer { ForLists self.now (λ c. recording made.EditionGone result ≡ spec.drop_edition c sessions.now name.now cascade) }
        ensures lives { IfOk result (λ e. is_living self.now.chain.made e ≡ true) }
        ensures childless { IfOk result (λ e. child_of self.now.chain.made e ≡ None) }
        ensures spared { IfOk result (λ e. e ≢ self.now.chain.default) }
    {
        let e = self.droppable(name)?;
        match self.drop_refusal(sessions, cascade, e) {
            Some(code) => Err(code),
            None => Ok(e),
        }
    }

    /// The edition of a name, which must be the leaf.
    fn droppable(&self, name: &Name) -> Result<EditionNo, Code>
        ensures answer { result ≡ drop_answer self.now.chain.made name.now }
        ensures lives { IfOk result (λ e. is_living self.now.chain.made e ≡ true) }
        ensures childless { IfOk result (λ e. child_of self.now.chain.made e ≡ None) }
    {
        let Some(e) = self.chain.number(name) else {
            return Err(Code::Ora(38802));
        };
        if self.chain.child(e).is_some() {
            return Err(Code::Ebr(32));
        }
        Ok(e)
    }

    /// The code by which DROP EDITION refuses a leaf.
    fn drop_refusal(&self, sessions: &[EditionNo], cascade: bool, e: EditionNo) -> Option<Code>
        ensures refusal { ForLists self.now (λ c. result ≡ spec.drop_refusal c sessions.now cascade e) }
        ensures spared { IfNone result (e ≢ self.now.chain.default) }
    {
        if e == self.chain.default() {
            return Some(Code::Ebr(33));
        }
        if is_among(sessions, e) {
            return Some(Code::Ebr(33));
        }
        if !cascade && self.has_objects(e) {
            return Some(Code::Ora(38811));
        }
        None
    }

    /// Whether an object is actual in an edition.
    fn has_objects(&self, e: EditionNo) -> bool
        ensures { ForLists self.now (λ c. result ≡ has_objects c e) }
    {
        for key in self.actuals.keys() {
            if self.actuals.actual(e, key).is_some() {
                return true;
            }
        }
        false
    }

    /// The plan of ALTER DATABASE DEFAULT EDITION. Refusal: ORA-38802 where no living edition has the name.
    pub(crate) fn plan_default(&self, name: &Name) -> Result<CatalogueRecord, Stop>
        ensures answer { ForLists self.now (λ c. Answers result (spec.default_edition c name.now)) }
        ensures follows { IfOk result (λ r. MayFollow self.now r) }
    {
        match self.edition_named(name) {
            Ok(e) => Ok(CatalogueRecord::Default(e)),
            Err(code) => Err(Stop::Raised(code)),
        }
    }
}

fn is_among(sessions: &[EditionNo], e: EditionNo) -> bool
    ensures { result ≡ list_any (is_edition e) sessions.now }
{
    sessions.iter().any(|session| e == *session)
}
