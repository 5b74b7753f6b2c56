//! What a contract means: clauses, terms, how a clause opens to a term, what a record leaves of a
//! term, and when a term can end at the earliest. Here is nothing to run: each function stands for
//! the theorem that is its contract, whatever the kind and the templates.
#![tactic(auto)]

ghost use Rattle.std.specs.Prelude.{List};
ghost use Rattle.language.specs.Clauses.{Clause};
ghost use Rattle.language.specs.Opening.{OpeningRules};
ghost use Rattle.language.specs.Residuals.{ResidualRules};
ghost use Rattle.language.specs.Laws.{OpeningLaw, ResidualLaw, MayEndLaw, EarliestLaw};

use kinds::Kind;

/// Opening keeps to its rules, whatever the templates.
pub fn opening_keeps_its_rules()
    ensures { (templates : List Clause) → OpeningRules templates }
{}

/// Residuals keep to their rules.
pub fn residuals_keep_their_rules<K: Kind>()
    ensures { (templates : List Clause) → ResidualRules K.Kind.meaning templates }
{}

/// An opened clause stands for exactly the lists of records that perform the clause.
pub fn opened_clauses_stand_for_their_lists<K: Kind>()
    ensures { (templates : List Clause) → OpeningLaw K.Kind.meaning templates }
{}

/// A residual stands for exactly the lists that, with the record in front, the term stands for.
pub fn residuals_stand_for_what_is_left<K: Kind>()
    ensures { (templates : List Clause) → ResidualLaw K.Kind.meaning templates }
{}

/// A term may end exactly where it stands for the empty list.
pub fn may_end_is_the_empty_list<K: Kind>()
    ensures { (templates : List Clause) → MayEndLaw K.Kind.meaning templates }
{}

/// Some list that completes a term ends on its earliest end, and none ends sooner.
pub fn earliest_ends_are_reached_and_none_is_sooner<K: Kind>()
    ensures { (templates : List Clause) → EarliestLaw K.Kind.meaning templates }
{}
