// The partition's walk over the tree of what stands at its connector: configure-connector.
#![tactic(auto)]

ghost use Rattle.std.specs.Prelude.{◌≡◌, [], ◌∷◌, eqb, length};
ghost use Rattle.words.specs.Bytes.{word_at};
ghost use Rattle.words.specs.Pick.{every};
ghost use Rattle.table.specs.Model.{table_of, writes};
ghost use Rattle.guards.specs.Guards.{is_area};
ghost use Rattle.calls.specs.Calls.{step_edits, configure, Answered};

use calls::look_up_own;
use connector::Connector;
use kinds::Index;
use step_status::StepStatus;
use table::WORDS;

// Step 1, as far as the work area goes: one page or two, and word 1 zero.
fn is_form(area: &[u8]) -> bool
    ensures { result ≡ every (is_area (length area.now) ∷ eqb (word_at area.now 4) 0 ∷ []) }
{
    guards::is_area(area.len()) && words::word_at(area, 4) == 0
}

// What a step did to connector i is stored; a refusal stores nothing.
fn carry_step(t: &mut [u32; WORDS], i: usize, status: StepStatus, c: Connector)
    ensures { t.new ≡ writes t.old (step_edits i status c) }
{
    if step_status::is_refusal(status) {
        return;
    }
    edits::store_step(t, i, c.state, c.walk);
}

pub fn configure_connector(
    t: &mut [u32; WORDS],
    partition: u32,
    area: &mut [u8],
    structure: &[u8],
    strings: &[u8],
) -> StepStatus
    ensures { Answered t.old t.new result (configure (table_of t.old) partition area.old structure.now strings.now).answer × (area.new ≡ (configure (table_of t.old) partition area.old structure.now strings.now).area) }
{
    if !is_form(area) {
        return StepStatus::Parameter;
    }
    let k = Index(words::word_at(area, 0));
    let Some((i, c)) = look_up_own(t, partition, k) else {
        return StepStatus::Parameter;
    };
    let o = walk::step(c, area, structure, strings, t);
    carry_step(t, i, o.status, o.connector);
    o.status
}
