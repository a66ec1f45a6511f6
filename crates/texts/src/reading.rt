// Reads a text into lists of records.
ghost use Rattle.std.specs.Prelude.{◌≡◌, ◌<◌, ◌≤◌, length, MatchResult};
ghost use Rattle.records.specs.declared.fault.Layer.TheVariants.{Table};
ghost use Rattle.records.specs.Faults.{refusal, told};
ghost use Rattle.records.specs.Rules.{held};
ghost use Rattle.texts.specs.Contents.{SameLists, contents};
ghost use Rattle.texts.specs.Readings.{AllThere, OnlyOutcome, Outcome, ReadTo, Refused, UndefinedCall, no_counts};
ghost use Rattle.texts.specs.Stores.{Same};
ghost use Rattle.texts.specs.Whole.{Accepts, Refuses};

use crate::calls::node_place;
use crate::lists::{Counts, Lists};
use crate::store::Store;
use crate::walk::Lines;
use records::fault::Fault;
use records::record::Sofar;
use records::rules::undefined_call;

// Reads the text's lines in turn, up to its end or to the first line that breaks a rule.
fn read_lines(text: &[u8], store: &mut Store) -> Result<(), Fault>
    requires { store.old.counts ≡ no_counts }
    ensures same { Same store.old store.new }
    ensures reads { MatchResult result (λ _. ReadTo text.now (contents store.old.lists.now) (contents store.new.lists.now) (length text.now) store.new.counts) (λ fault. Refused text.now (contents store.old.lists.now) (contents store.new.lists.now) (told fault)) }
{
    for (at, line) in Lines::of(text) {
        let line = line.ok_or(Fault::Form(at))?;
        store.add(line, at)?;
    }
    Ok(())
}

// Refuses a text that is too long.
fn check_length(text: &[u8]) -> Result<(), Fault>
    ensures { MatchResult result (λ _. length text.now ≤ 65536) (λ fault. (65536 < length text.now) × (told fault ≡ refusal 3 Table 65536)) }
{
    if text.len() > 65536 {
        return Err(Fault::Limit(65536));
    }
    Ok(())
}

// Refuses a text whose nodes call a definition that is not there, at the line of the lowest such node.
fn check_calls(text: &[u8], sofar: Sofar) -> Result<(), Fault>
    ensures { MatchResult result (λ _. AllThere (held sofar.entry)) (λ fault. UndefinedCall text.now (held sofar.entry) (told fault)) }
{
    match undefined_call(sofar.nodes, sofar.defs.len()) {
        Some(n) => Err(Fault::Missing(node_place(text, n as u64))),
        None => Ok(()),
    }
}

// Reads a whole text: its length, its lines, and then the definitions that its nodes call.
pub fn read(text: &[u8], lists: &mut Lists) -> Result<Counts, Fault>
    ensures same { SameLists lists.new lists.old }
    ensures outcome { Outcome text.now (contents lists.old) (contents lists.new) result }
    ensures only { OnlyOutcome text.now (contents lists.old) (contents lists.new) result }
    ensures accepts { Accepts text.now (contents lists.old) (contents lists.new) result }
    ensures refuses { Refuses text.now (contents lists.old) result }
{
    check_length(text)?;
    let mut store = Store {
        lists,
        counts: Counts::default(),
    };
    read_lines(text, &mut store)?;
    check_calls(text, store.sofar())?;
    Ok(store.counts)
}
