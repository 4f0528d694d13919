// What the lines of a turn give.
ghost use Rattle.std.specs.Prelude.{◌≡◌, ◌+◌, ◌<◌, ◌^◌, ◌++◌, ◌∷◌, [], length, map, IfOk, OnOk};
ghost use Rattle.site_model.specs.PlainSite.{site_view};
ghost use Rattle.event_text.specs.Reading.{line_read};
ghost use Rattle.run_meaning.specs.Dealing.{line_events, line_refusals};
ghost use Rattle.run_text.specs.TurnReading.{as_line};
ghost use Rattle.site_posts.specs.Made.{asked_of};
ghost use Rattle.turn_deal.specs.Dealt.{refusal_of};
ghost use Rattle.turn_deal.specs.Parts.{Deal};

use crate::refusal::Refusal;
use event_text::{LineError, read_line};
use site_base::{Blob, OutOfMemory};
use site_model::Site;
use site_posts::Act;
use std::alloc::Global;

/// The acts that lines give, and what is refused of them.
#[derive(Drop)]
pub(crate) struct LinesDealt {
    pub acts: Vec<Act>,
    pub refusals: Vec<Refusal>,
}

/// What these lines of a turn give. So many stand before them.
pub(crate) fn deal_lines(
    alloc: Global,
    site: &Site,
    before: usize,
    lines: &[Blob],
) -> Result<LinesDealt, OutOfMemory>
    requires { before + length lines.now < 2 ^ 64 }
    ensures { IfOk result (Deal (site_view site.now) before lines.now) }
{
    let mut acts = Vec::with_capacity(alloc, lines.len())?;
    let mut refusals = Vec::new(alloc);
    for (i, line) in lines.iter().enumerate() {
        let number = (before + i) as u64 + 1;
        deal_line(
            alloc,
            site,
            number,
            line.as_slice(),
            &mut acts,
            &mut refusals,
        )?;
    }
    Ok(LinesDealt { acts, refusals })
}

/// Adds what the line of this number gives.
fn deal_line(
    alloc: Global,
    site: &Site,
    number: u64,
    line: &[u8],
    acts: &mut Vec<Act>,
    refusals: &mut Vec<Refusal>,
) -> Result<(), OutOfMemory>
    ensures events { OnOk result (map asked_of acts.new.items ≡ map asked_of acts.old.items ++ line_events (as_line (line_read (site_view site.now) line.now) ∷ [])) }
    ensures refusals { OnOk result (map refusal_of refusals.new.items ≡ map refusal_of refusals.old.items ++ line_refusals number (as_line (line_read (site_view site.now) line.now) ∷ [])) }
{
    match read_line(alloc, line, site) {
        Ok((checkable, event)) => acts.push(Act { checkable, event })?,
        Err(LineError::Fault(fault)) => refusals.push(Refusal::Line { number, fault })?,
        Err(LineError::OutOfMemory) => return Err(OutOfMemory),
    }
    Ok(())
}
