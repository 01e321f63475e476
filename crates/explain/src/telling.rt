// All that is told of the lines behind the front of a sheet, each with what its lookup ends in.
ghost use Rattle.std.specs.Prelude.{◌≡◌, [], ◌∷◌, ◌++◌, OnOk};
ghost use Rattle.std.specs.Io.KnownBytes.{Appends};
ghost use Rattle.std.specs.Option.{option_map};
ghost use Rattle.texts.specs.Held.{bytes_of};
ghost use Rattle.settings.specs.Meant.{tables};
ghost use Rattle.explain.specs.declared.cause.Cause.TheVariants as Cause;
ghost use Rattle.explain.specs.Causes.{refused_sentence};
ghost use Rattle.explain.specs.Questions.{asked};
ghost use Rattle.explain.specs.SheetLines.{left_of, lines_before};
ghost use Rattle.explain.specs.Telling.{QuietTold, Tells, TellsLine, TellsRest, Written, looked_up, looked_up_first};

use crate::answer::ask;
use crate::cause::Cause;
use crate::ending::{LookupEnd, Memory};
use crate::numbered::NumberedLines;
use crate::offer::offers;
use crate::question::{Order, Question};
use crate::quiet::quiet_end;
use crate::reading::{Reading, sought};
use crate::refusal::Refusal;
use crate::sentence::{Forgot, Labels, Offered, Refused, Told};
use crate::trial::{deciding, trials};
use candidates::asks_for_directory;
use resolver::Resolver;
use settings::Settings;
use std::alloc::Global;
use std::io::Write;
use texts::{MAX_LEN, Text};
use tree::{FileTree, Host, Policy};

// The sentence on a line whose question is refused.
fn refused<W: Write>(line: u64, refusal: Refusal, text: &[u8], out: &mut W) -> anyhow::Result<()>
    ensures sentence_on_the_line { OnOk result (Appends (W.Write.contents out.old) (W.Write.contents out.new) (refused_sentence line (Cause.Question refusal) text.now ++ 10 ∷ [])) }
{
    let cause = Cause::Question(refusal);
    writeln!(out, "{}", Refused { line, cause, text })?;
    Ok(())
}

// What the labels make of a text that is looked up, and the candidates of its path, in lines.
fn looked_up<H: Host, P: Policy, W: Write>(
    alloc: Global,
    host: &mut H,
    policy: &P,
    settings: &Settings,
    question: Question,
    out: &mut W,
) -> anyhow::Result<()>
    requires sound { H.FileTree.sound host.old }
    ensures lines_on_labels_and_candidates { OnOk result (Appends (W.Write.contents out.old) (W.Write.contents out.new) (looked_up (H.FileTree.meaning host.old) (P.Policy.allowed policy.now) (tables settings.now) question.entry.directory.now question.entry.request.now)) }
    ensures same_meaning { H.FileTree.meaning host.new ≡ H.FileTree.meaning host.old }
    ensures still_sound { H.FileTree.sound host.new }
{
    let aliases = settings.aliases();
    let request = question.request;
    let trials = trials(alloc, host, aliases, question)?;
    let labels = Labels {
        aliases,
        request,
        decided: deciding(host, aliases, question),
        trials: trials.as_slice(),
    };
    write!(out, "{labels}")?;
    let Some(path) = sought(question) else {
        return Ok(());
    };
    let path = path.as_bytes();
    let inside = asks_for_directory(request);
    let offers = offers(alloc, host, policy, settings, inside, path)?;
    let offered = Offered {
        path,
        offers: offers.as_slice(),
    };
    write!(out, "{offered}")?;
    Ok(())
}

// The same, if there is such a text.
fn looked_up_first<H: Host, P: Policy, W: Write>(
    alloc: Global,
    host: &mut H,
    policy: &P,
    settings: &Settings,
    directory: &[u8],
    text: Option<Text<MAX_LEN>>,
    out: &mut W,
) -> anyhow::Result<()>
    requires sound { H.FileTree.sound host.old }
    ensures lines_if_there_is_a_text { OnOk result (Appends (W.Write.contents out.old) (W.Write.contents out.new) (looked_up_first (H.FileTree.meaning host.old) (P.Policy.allowed policy.now) (tables settings.now) directory.now (option_map bytes_of text))) }
    ensures same_meaning { H.FileTree.meaning host.new ≡ H.FileTree.meaning host.old }
    ensures still_sound { H.FileTree.sound host.new }
{
    let Some(text) = text else {
        return Ok(());
    };
    let request = text.as_bytes();
    looked_up(
        alloc,
        host,
        policy,
        settings,
        Question { directory, request },
        out,
    )
}

// Where a lookup of a quiet question ends, in a sentence with the law that says so; nothing of any other.
fn quiet_told<H: Host, P: Policy, W: Write>(
    alloc: Global,
    host: &mut H,
    policy: &P,
    settings: &Settings,
    question: Question,
    out: &mut W,
) -> anyhow::Result<()>
    requires sound { H.FileTree.sound host.old }
    ensures end_of_a_quiet_question { OnOk result (Written (W.Write.contents out.old) (W.Write.contents out.new) (QuietTold (H.FileTree.meaning host.old) (P.Policy.allowed policy.now) (tables settings.now) question.entry.directory.now question.entry.request.now)) }
    ensures same_meaning { H.FileTree.meaning host.new ≡ H.FileTree.meaning host.old }
    ensures still_sound { H.FileTree.sound host.new }
{
    let Some(quiet) = quiet_end(alloc, host, policy, settings, question)? else {
        return Ok(());
    };
    write!(out, "{quiet}\n")?;
    Ok(())
}

// All that is told of the question of a line: why it is refused; or how it is read, what is looked up for it, and where it ends if it is quiet.
fn tell<H: Host, P: Policy, W: Write>(
    alloc: Global,
    host: &mut H,
    policy: &P,
    settings: &Settings,
    line: u64,
    question: Question,
    out: &mut W,
) -> anyhow::Result<()>
    requires sound { H.FileTree.sound host.old }
    ensures all_that_is_told { OnOk result (Written (W.Write.contents out.old) (W.Write.contents out.new) (Tells (H.FileTree.meaning host.old) (P.Policy.allowed policy.now) (tables settings.now) line (asked question.entry))) }
    ensures same_meaning { H.FileTree.meaning host.new ≡ H.FileTree.meaning host.old }
    ensures still_sound { H.FileTree.sound host.new }
{
    let reading = match Reading::of(question) {
        Ok(reading) => reading,
        Err(refusal) => return refused(line, refusal, question.to_blame(refusal), out),
    };
    let directory = question.directory;
    let answer = ask(host, directory, &reading);
    let told = Told::of(line, question, &reading, answer);
    writeln!(out, "{told}")?;
    let both = reading.with_fragment(question.request);
    looked_up_first(alloc, host, policy, settings, directory, both, out)?;
    let request = reading.path.as_bytes();
    looked_up(
        alloc,
        host,
        policy,
        settings,
        Question { directory, request },
        out,
    )?;
    quiet_told(alloc, host, policy, settings, question, out)
}

/// All that is told of a line behind the front: of its question with what its lookup ends in, that the resolver forgets, or why the line is refused.
pub fn tell_line<H: Host, G: Host, P: Policy, W: Write>(
    alloc: Global,
    host: &mut H,
    policy: &P,
    settings: &Settings,
    resolver: &mut Resolver<G, P>,
    memory: &mut Memory,
    number: u64,
    line: &[u8],
    out: &mut W,
) -> anyhow::Result<()>
    requires sound { H.FileTree.sound host.old }
    requires sound_resolver { G.FileTree.sound resolver.old.host }
    ensures all_that_is_told { OnOk result (Written (W.Write.contents out.old) (W.Write.contents out.new) (TellsLine (H.FileTree.meaning host.old) (G.FileTree.meaning resolver.old.host) (P.Policy.allowed policy.now) (P.Policy.allowed resolver.old.policy) (tables settings.now) (tables resolver.old.settings) number line.now resolver.old.handed_out resolver.new.handed_out)) }
    ensures settings_and_policy_stay { (resolver.new.settings ≡ resolver.old.settings) × (resolver.new.policy ≡ resolver.old.policy) }
    ensures same_meaning { (H.FileTree.meaning host.new ≡ H.FileTree.meaning host.old) × (G.FileTree.meaning resolver.new.host ≡ G.FileTree.meaning resolver.old.host) }
    ensures still_sound { H.FileTree.sound host.new }
    ensures resolver_still_sound { G.FileTree.sound resolver.new.host }
{
    match Order::read(line) {
        Ok(Order::Ask(question)) => {
            tell(alloc, host, policy, settings, number, question, out)?;
            let end = LookupEnd::of(resolver, question, memory);
            writeln!(out, "{end}")?;
            Ok(())
        }
        Ok(Order::Forget) => {
            resolver.forget();
            writeln!(out, "{}", Forgot { line: number })?;
            Ok(())
        }
        Err(refusal) => refused(number, refusal, line, out),
    }
}

/// All that is told of the lines behind the front, in their order.
pub fn tell_lines<H: Host, G: Host, P: Policy, W: Write>(
    alloc: Global,
    host: &mut H,
    policy: &P,
    settings: &Settings,
    resolver: &mut Resolver<G, P>,
    lines: NumberedLines,
    out: &mut W,
) -> anyhow::Result<()>
    requires sound { H.FileTree.sound host.old }
    requires sound_resolver { G.FileTree.sound resolver.old.host }
    ensures line_by_line_to_the_end { OnOk result (Written (W.Write.contents out.old) (W.Write.contents out.new) (TellsRest (H.FileTree.meaning host.old) (G.FileTree.meaning resolver.old.host) (P.Policy.allowed policy.now) (P.Policy.allowed resolver.old.policy) (tables settings.now) (tables resolver.old.settings) (lines_before lines.entry) (left_of lines.entry) resolver.old.handed_out resolver.new.handed_out)) }
    ensures still_sound { H.FileTree.sound host.new }
    ensures resolver_still_sound { G.FileTree.sound resolver.new.host }
{
    let mut memory = Memory::new();
    for (number, line) in lines {
        tell_line(
            alloc,
            host,
            policy,
            settings,
            resolver,
            &mut memory,
            number,
            line,
            out,
        )?;
    }
    Ok(())
}
