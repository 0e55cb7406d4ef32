//! The stages, each with all that follow it.
ghost use Rattle.std.specs.Prelude.{◌≡◌, ◌≤◌, All, Contains, IfOk, Some, length, slice_get};
ghost use Rattle.vsd_text.specs.Tokens.{LiesWithin};
ghost use Rattle.vsd_ast.specs.Scripts.{IsWellFormedScript};
ghost use Rattle.vsd_ast.specs.WellFormed.{AreWellFormed};
ghost use Rattle.vsd_check.specs.Checked.{decls_of};
ghost use Rattle.vsd_grammar.specs.Place.{most_tokens};
ghost use Rattle.vsd_types.specs.Numbers.{AreNumbers};
ghost use Rattle.vsd_types.specs.Types.{IsClosedType};
ghost use Rattle.vsd_answers.specs.Numbering.{site_pairs, site_tokens_of, tokens_of};
ghost use Rattle.vsd_stages.specs.Rooted.{AreTabled, NameSlots};
ghost use Rattle.vsd_stages.specs.Settling.{Settles};
ghost use Rattle.vsd_stages.specs.Stages.{AreWhole, Builds, Checks, Closes, Declares, Ends, Scripts};

use crate::prepared::Prepared;
use crate::preparing::prepare;
use crate::stopping::{
    Stopped, stopped_build, stopped_check, stopped_close, stopped_decl, stopped_lex, stopped_script,
};
use std::alloc::{AllocError, Global};
use vsd_answers::{Tokens, number_tokens, pairs_of_sites};
use vsd_ast::{Decls, Script};
use vsd_check::{Checked, check};
use vsd_compat::Variances;
use vsd_decls::read_decls;
use vsd_itable::Tables;
use vsd_script::read_script;
use vsd_terms::Term;
use vsd_text::{Token, lex};
use vsd_types::{Closed, close};

/// What a text answers, or why there are no answers: the stages in their order. `Refused` has the text's first refusal, and
/// comes only where that is how the text ends; `Memory` is want of memory.
pub fn answer(alloc: Global, text: &[u8]) -> Result<Prepared, Stopped>
    ensures { Settles (Ends text.now) result }
{
    match lex(alloc, text) {
        Ok(tokens) => declared(alloc, text, &tokens),
        Err(error) => Err(stopped_lex(error)),
    }
}

/// The tokens up to the `%%` are declarations.
fn declared(alloc: Global, text: &[u8], tokens: &[Token]) -> Result<Prepared, Stopped>
    requires within { All (LiesWithin text.now) tokens.now }
    requires few { length tokens.now ≤ most_tokens }
    ensures { Settles (Declares text.now tokens.now) result }
{
    match read_decls(alloc, text, tokens) {
        Ok(decls) => checked(alloc, text, tokens, decls),
        Err(error) => Err(stopped_decl(error)),
    }
}

/// Declarations that are lawful are gone on with.
fn checked(alloc: Global, text: &[u8], tokens: &[Token], decls: Decls) -> Result<Prepared, Stopped>
    requires within { All (LiesWithin text.now) tokens.now }
    requires few { length tokens.now ≤ most_tokens }
    requires formed { AreWellFormed decls }
    requires rest { decls.rest ≤ length tokens.now }
    ensures { Settles (Checks text.now tokens.now decls) result }
{
    match check(alloc, decls) {
        Ok(checked) => scripted(alloc, text, tokens, checked),
        Err(error) => Err(stopped_check(error)),
    }
}

/// The script is read over the declarations.
fn scripted(
    alloc: Global,
    text: &[u8],
    tokens: &[Token],
    checked: Checked,
) -> Result<Prepared, Stopped>
    requires within { All (LiesWithin text.now) tokens.now }
    requires few { length tokens.now ≤ most_tokens }
    requires rest { (decls_of checked).rest ≤ length tokens.now }
    ensures { Settles (Scripts text.now tokens.now (decls_of checked)) result }
{
    match read_script(alloc, text, tokens, checked.decls()) {
        Ok(script) => closed(alloc, checked, script),
        Err(error) => Err(stopped_script(error)),
    }
}

/// Types are closed over the roots of the script.
fn closed(alloc: Global, checked: Checked, script: Script) -> Result<Prepared, Stopped>
    requires formed { IsWellFormedScript script }
    requires roots { All (IsClosedType (decls_of checked).list) script.roots }
    requires slots { NameSlots (decls_of checked).list script }
    ensures { Settles (Closes (decls_of checked) script) result }
{
    match close(alloc, &checked, script.roots.as_slice()) {
        Ok(closed) => built(alloc, checked, closed, script),
        Err(error) => Err(stopped_close(error)),
    }
}

/// The number of a type that is listed.
fn number_of(closed: &Closed, term: &Term) -> u16
    requires { Contains closed.now.types term.now }
    ensures { slice_get closed.now.types result ≡ Some term.now }
{
    match closed.number(term) {
        Some(number) => number,
        None => unreachable!(),
    }
}

/// The numbers of types that are listed.
fn numbers_of(alloc: Global, closed: &Closed, terms: &[Term]) -> Result<Vec<u16>, AllocError>
    requires { All (Contains closed.now.types) terms.now }
    ensures { IfOk result (λ numbers. AreNumbers closed.now.types numbers.items terms.now) }
{
    let mut numbers = Vec::new(alloc);
    for term in terms {
        numbers.push(number_of(closed, term))?;
    }
    Ok(numbers)
}

/// The tokens of a script's sites, with the numbers of its roots' types.
pub(crate) fn tokens_of(
    alloc: Global,
    closed: &Closed,
    script: &Script,
) -> Result<(Vec<u16>, Tokens), AllocError>
    requires formed { IsWellFormedScript script.now }
    requires listed { All (Contains closed.now.types) script.now.roots }
    ensures numbers { IfOk result (λ made. AreNumbers closed.now.types made.0.items script.now.roots) }
    ensures tokens { IfOk result (λ made. made.1.list.items ≡ tokens_of (site_pairs script.now.sites made.0.items)) }
    ensures sites { IfOk result (λ made. made.1.sites.items ≡ site_tokens_of (site_pairs script.now.sites made.0.items)) }
{
    let types = numbers_of(alloc, closed, script.roots.as_slice())?;
    let pairs = pairs_of_sites(alloc, script.sites.as_slice(), &types)?;
    let tokens = number_tokens(alloc, &pairs)?;
    Ok((types, tokens))
}

/// Tables are built over the closed list, for the slots of the sites.
fn built(
    alloc: Global,
    checked: Checked,
    closed: Closed,
    script: Script,
) -> Result<Prepared, Stopped>
    requires together { closed.decls ≡ decls_of checked }
    requires formed { IsWellFormedScript script }
    requires listed { All (Contains closed.types) script.roots }
    requires slots { NameSlots closed.decls.list script }
    ensures { Settles (Builds closed.decls script closed.types) result }
{
    let Ok((types, tokens)) = tokens_of(alloc, &closed, &script) else {
        return Err(Stopped::Memory);
    };
    let Ok(variances) = Variances::compute(alloc, &closed) else {
        return Err(Stopped::Memory);
    };
    let count = tokens.list.len() as u16;
    match Tables::build(alloc, checked, closed, variances, tokens.list) {
        Ok(tables) => prepared(alloc, &tables, script, &types, tokens.sites, count),
        Err(error) => Err(stopped_build(error)),
    }
}

/// The answers, by tables over the closed list.
fn prepared(
    alloc: Global,
    tables: &Tables,
    script: Script,
    types: &[u16],
    sites: Vec<u16>,
    count: u16,
) -> Result<Prepared, Stopped>
    requires whole { AreWhole tables.now.closed }
    requires formed { IsWellFormedScript script }
    requires tabled { AreTabled tables.now script types.now sites.items }
    requires tokens { count ≡ length tables.now.tokens }
    ensures { Settles (Builds tables.now.closed.decls script tables.now.closed.types) result }
{
    match prepare(alloc, tables, script, types, sites, count) {
        Ok(prepared) => Ok(prepared),
        Err(_) => Err(Stopped::Memory),
    }
}
