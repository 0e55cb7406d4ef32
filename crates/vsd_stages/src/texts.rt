//! The texts of methods and slots that lines may name.
ghost use Rattle.std.specs.Prelude.{◌≡◌, ℕ, ◌<◌, ◌≤◌, OnOk, IfOk, length};
ghost use Rattle.vsd_itable.specs.Tables.{AreTables, sel_of, slot_text, tokens_count, types_count};
ghost use Rattle.vsd_lines.specs.Lines.{text_at};
ghost use Rattle.vsd_rule.specs.Lists.{entry};
ghost use Rattle.vsd_stages.specs.Noted.{AreRight, AreTold, IsNoted, IsTold, Keeps};

use sqlite_items::Items;
use std::alloc::{AllocError, Global};
use vsd_ast::Bytes;
use vsd_itable::{Tables, Target};

/// Texts that aren't made yet, up to a number.
fn reserve(alloc: Global, texts: &mut Vec<Bytes>, count: usize) -> Result<(), AllocError>
    ensures long { OnOk result (count ≤ length texts.new.items) }
    ensures grows { length texts.old.items ≤ length texts.new.items }
    ensures same { (n : ℕ) → text_at texts.new.items n ≡ text_at texts.old.items n }
{
    while texts.len() < count {
        texts.push(Bytes::new(alloc))?;
    }
    Ok(())
}

/// Makes the text of a method, where it isn't made yet.
fn note(alloc: Global, tables: &Tables, texts: &mut Vec<Bytes>, n: u32) -> Result<(), AllocError>
    requires number { n < length tables.now.methods }
    requires right { AreRight tables.now texts.old.items }
    ensures noted { OnOk result (IsNoted tables.now texts.new.items n) }
    ensures keeps { OnOk result (Keeps tables.now texts.old.items texts.new.items) }
    ensures right { OnOk result (AreRight tables.now texts.new.items) }
{
    let place = n as usize;
    reserve(alloc, texts, place + 1)?;
    if texts[place].is_empty() {
        texts[place] = Items::from_vec(tables.method_text(alloc, n)?);
    }
    Ok(())
}

/// Makes the text of the method that a type selects through a token, where there is one.
fn note_target(
    alloc: Global,
    tables: &Tables,
    texts: &mut Vec<Bytes>,
    t: u16,
    k: u16,
) -> Result<(), AllocError>
    requires listed { t < types_count tables.now }
    requires token { k < tokens_count tables.now }
    requires right { AreRight tables.now texts.old.items }
    ensures told { OnOk result (IsTold tables.now texts.new.items (entry (sel_of tables.now) (tokens_count tables.now) t k)) }
    ensures keeps { OnOk result (Keeps tables.now texts.old.items texts.new.items) }
    ensures right { OnOk result (AreRight tables.now texts.new.items) }
{
    match tables.select(t, k) {
        Target::Method(n) => note(alloc, tables, texts, n),
        Target::Missing => Ok(()),
    }
}

/// Makes the texts of the methods that a type selects.
fn note_type(
    alloc: Global,
    tables: &Tables,
    texts: &mut Vec<Bytes>,
    t: u16,
    tokens: u16,
) -> Result<(), AllocError>
    requires listed { t < types_count tables.now }
    requires tokens { tokens ≡ tokens_count tables.now }
    requires right { AreRight tables.now texts.old.items }
    ensures told { OnOk result (AreTold tables.now texts.new.items t tokens) }
    ensures keeps { OnOk result (Keeps tables.now texts.old.items texts.new.items) }
    ensures right { OnOk result (AreRight tables.now texts.new.items) }
{
    for k in 0..tokens {
        note_target(alloc, tables, texts, t, k)?;
    }
    Ok(())
}

/// The texts of all methods that are selected through some token, by their numbers.
pub(crate) fn method_texts(
    alloc: Global,
    tables: &Tables,
    tokens: u16,
) -> Result<Vec<Bytes>, AllocError>
    requires tokens { tokens ≡ tokens_count tables.now }
    ensures told { IfOk result (λ texts. (t : ℕ) → t < types_count tables.now → AreTold tables.now texts.items t tokens) }
    ensures tables { AreTables tables.now }
{
    let mut texts = Vec::new(alloc);
    let types = tables.closed().count();
    for t in 0..types {
        note_type(alloc, tables, &mut texts, t, tokens)?;
    }
    Ok(texts)
}

/// The texts of the tokens' slots.
pub(crate) fn slot_texts(
    alloc: Global,
    tables: &Tables,
    tokens: u16,
) -> Result<Vec<Bytes>, AllocError>
    requires tokens { tokens ≡ tokens_count tables.now }
    ensures count { IfOk result (λ texts. length texts.items ≡ tokens) }
    ensures texts { IfOk result (λ texts. (k : ℕ) → k < tokens → text_at texts.items k ≡ slot_text tables.now k) }
{
    let mut texts = Vec::with_capacity(alloc, usize::from(tokens))?;
    for k in 0..tokens {
        texts.push(Items::from_vec(tables.token_text(alloc, k)?))?;
    }
    Ok(texts)
}
