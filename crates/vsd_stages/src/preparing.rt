//! The answers of a script by tables.
ghost use Rattle.std.specs.Prelude.{◌≡◌, IfOk, length};
ghost use Rattle.vsd_ast.specs.Scripts.{IsWellFormedScript};
ghost use Rattle.vsd_stages.specs.Answered.{AreAnswers};
ghost use Rattle.vsd_stages.specs.Rooted.{AreTabled};
ghost use Rattle.vsd_stages.specs.Settling.{IsWritable, bytes_of};

use crate::prepared::Prepared;
use crate::texts::{method_texts, slot_texts};
use std::alloc::{AllocError, Global};
use vsd_answers::answer_lanes;
use vsd_ast::Script;
use vsd_itable::Tables;

/// The answers of a script by tables, with the texts that its lines may name. `types` has the numbers of its roots' types,
/// and `sites` the tokens of its sites.
pub(crate) fn prepare(
    alloc: Global,
    tables: &Tables,
    script: Script,
    types: &[u16],
    sites: Vec<u16>,
    tokens: u16,
) -> Result<Prepared, AllocError>
    requires formed { IsWellFormedScript script }
    requires tabled { AreTabled tables.now script types.now sites.items }
    requires tokens { tokens ≡ length tables.now.tokens }
    ensures writable { IfOk result IsWritable }
    ensures answers { IfOk result (λ prepared. AreAnswers tables.now.closed.decls script (bytes_of prepared)) }
{
    let answers = answer_lanes(alloc, &script, types, &sites, tables)?;
    let method_texts = method_texts(alloc, tables, tokens)?;
    let slot_texts = slot_texts(alloc, tables, tokens)?;
    Ok(Prepared {
        script,
        site_tokens: sites,
        method_texts,
        slot_texts,
        answers,
    })
}
