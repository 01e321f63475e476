// Answering what the lines of a sheet left to do: runs of calls are served together, and their rows stand in the order of the lines.
ghost use Rattle.std.specs.Prelude.{◌≡◌, ◌≤◌, ◌<◌, [], ◌++◌, OnOk, IfOk, length, map};
ghost use Rattle.stack.specs.Held.{held};
ghost use Rattle.settings.specs.Meant.{tables};
ghost use Rattle.sheets.specs.Replies.{AllFew};
ghost use Rattle.sheets.specs.Rows.{refusal_row, row_of, rows_of};
ghost use Rattle.sheets.specs.Tasks.{task_in};
ghost use Rattle.sheets.specs.Waiting.{call_row, call_rows, reply_rows, rows_then};

use crate::refusal::Refusal;
use crate::row::{push_refusal, push_reply};
use crate::task::Task;
use crate::work::{AREA, BATCH, Lent, ROWS, Work};
use lookup::OpenCall;
use resolver::{Call, Reply, Resolver};
use stack::ArrayVec;
use std::alloc::{AllocError, Global};
use tree::{FileTree, Host, Policy};

// The rows of replies, behind what was written before.
fn push_replies(rows: &mut Vec<u8>, replies: &[Reply]) -> Result<(), AllocError>
    requires few_rounds { AllFew replies.now }
    ensures rows_behind { OnOk result (rows.new.items ≡ rows.old.items ++ reply_rows replies.now) }
{
    for reply in replies {
        push_reply(rows, reply)?;
    }
    Ok(())
}

impl Lent {
    fn new() -> Lent {
        Lent {
            area: [0; AREA],
            rows: [OpenCall::blank(); ROWS],
            replies: [Reply::blank(); BATCH],
        }
    }

    // Serves as many calls as there are replies, and writes their rows behind what was written before.
    fn serve<H: Host, P: Policy>(
        &mut self,
        resolver: &mut Resolver<H, P>,
        sheet: &[u8],
        calls: &[Call],
        rows: &mut Vec<u8>,
    ) -> Result<(), AllocError>
        requires sound { H.FileTree.sound resolver.old.host }
        requires few_calls { length calls.now ≤ 64 }
        ensures rows_behind { OnOk result (rows.new.items ≡ rows.old.items ++ call_rows (H.FileTree.meaning resolver.old.host) (P.Policy.allowed resolver.old.policy) (tables resolver.old.settings) sheet.now calls.now) }
        ensures settings_and_policy_stay { (resolver.new.settings ≡ resolver.old.settings) × (resolver.new.policy ≡ resolver.old.policy) }
        ensures same_meaning { H.FileTree.meaning resolver.new.host ≡ H.FileTree.meaning resolver.old.host }
        ensures still_sound { H.FileTree.sound resolver.new.host }
    {
        self.replies.fill(Reply::blank());
        let served = resolver.serve(
            sheet,
            calls,
            &mut self.area,
            &mut self.rows,
            &mut self.replies,
        );
        push_replies(rows, &self.replies[..served])
    }
}

impl Work {
    // No row, and no call that waits.
    fn new(alloc: Global) -> Work
        ensures no_row { result.rows.items ≡ [] }
        ensures no_call_waits { held result.waiting ≡ [] }
    {
        Work {
            rows: Vec::new(alloc),
            waiting: ArrayVec::new(Call::Forget),
            lent: Lent::new(),
        }
    }

    // Serves the calls that wait, and writes their rows.
    fn flush<H: Host, P: Policy>(
        &mut self,
        resolver: &mut Resolver<H, P>,
        sheet: &[u8],
    ) -> Result<(), AllocError>
        requires sound { H.FileTree.sound resolver.old.host }
        ensures no_call_waits { OnOk result (held self.new.waiting ≡ []) }
        ensures all_rows_written { OnOk result (self.new.rows.items ≡ rows_then (H.FileTree.meaning resolver.old.host) (P.Policy.allowed resolver.old.policy) (tables resolver.old.settings) sheet.now self.old) }
        ensures settings_and_policy_stay { (resolver.new.settings ≡ resolver.old.settings) × (resolver.new.policy ≡ resolver.old.policy) }
        ensures same_meaning { H.FileTree.meaning resolver.new.host ≡ H.FileTree.meaning resolver.old.host }
        ensures still_sound { H.FileTree.sound resolver.new.host }
    {
        self.lent
            .serve(resolver, sheet, self.waiting.as_slice(), &mut self.rows)?;
        self.waiting.truncate(0);
        Ok(())
    }

    // Makes room for a call that is to wait: as many as are served at a time are served.
    fn make_room<H: Host, P: Policy>(
        &mut self,
        resolver: &mut Resolver<H, P>,
        sheet: &[u8],
    ) -> Result<(), AllocError>
        requires sound { H.FileTree.sound resolver.old.host }
        ensures room_for_one { OnOk result (length (held self.new.waiting) < 64) }
        ensures same_rows_then { OnOk result (rows_then (H.FileTree.meaning resolver.old.host) (P.Policy.allowed resolver.old.policy) (tables resolver.old.settings) sheet.now self.new ≡ rows_then (H.FileTree.meaning resolver.old.host) (P.Policy.allowed resolver.old.policy) (tables resolver.old.settings) sheet.now self.old) }
        ensures settings_and_policy_stay { (resolver.new.settings ≡ resolver.old.settings) × (resolver.new.policy ≡ resolver.old.policy) }
        ensures same_meaning { H.FileTree.meaning resolver.new.host ≡ H.FileTree.meaning resolver.old.host }
        ensures still_sound { H.FileTree.sound resolver.new.host }
    {
        if self.waiting.as_slice().len() < BATCH {
            return Ok(());
        }
        self.flush(resolver, sheet)
    }

    // Lets a call wait behind the others.
    fn wait<H: Host, P: Policy>(
        &mut self,
        resolver: &mut Resolver<H, P>,
        sheet: &[u8],
        call: Call,
    ) -> Result<(), AllocError>
        requires sound { H.FileTree.sound resolver.old.host }
        ensures its_row_behind { OnOk result (rows_then (H.FileTree.meaning resolver.old.host) (P.Policy.allowed resolver.old.policy) (tables resolver.old.settings) sheet.now self.new ≡ rows_then (H.FileTree.meaning resolver.old.host) (P.Policy.allowed resolver.old.policy) (tables resolver.old.settings) sheet.now self.old ++ call_row (H.FileTree.meaning resolver.old.host) (P.Policy.allowed resolver.old.policy) (tables resolver.old.settings) sheet.now call) }
        ensures settings_and_policy_stay { (resolver.new.settings ≡ resolver.old.settings) × (resolver.new.policy ≡ resolver.old.policy) }
        ensures same_meaning { H.FileTree.meaning resolver.new.host ≡ H.FileTree.meaning resolver.old.host }
        ensures still_sound { H.FileTree.sound resolver.new.host }
    {
        self.make_room(resolver, sheet)?;
        self.waiting.push(call).unwrap();
        Ok(())
    }

    // Tells a refusal behind the rows of the calls before it.
    fn tell<H: Host, P: Policy>(
        &mut self,
        resolver: &mut Resolver<H, P>,
        sheet: &[u8],
        refusal: Refusal,
    ) -> Result<(), AllocError>
        requires sound { H.FileTree.sound resolver.old.host }
        ensures its_row_behind { OnOk result (rows_then (H.FileTree.meaning resolver.old.host) (P.Policy.allowed resolver.old.policy) (tables resolver.old.settings) sheet.now self.new ≡ rows_then (H.FileTree.meaning resolver.old.host) (P.Policy.allowed resolver.old.policy) (tables resolver.old.settings) sheet.now self.old ++ refusal_row refusal) }
        ensures settings_and_policy_stay { (resolver.new.settings ≡ resolver.old.settings) × (resolver.new.policy ≡ resolver.old.policy) }
        ensures same_meaning { H.FileTree.meaning resolver.new.host ≡ H.FileTree.meaning resolver.old.host }
        ensures still_sound { H.FileTree.sound resolver.new.host }
    {
        self.flush(resolver, sheet)?;
        push_refusal(&mut self.rows, refusal)
    }

    // Does what a line left to do.
    fn carry_out<H: Host, P: Policy>(
        &mut self,
        resolver: &mut Resolver<H, P>,
        sheet: &[u8],
        task: Task,
    ) -> Result<(), AllocError>
        requires sound { H.FileTree.sound resolver.old.host }
        ensures its_row_behind { OnOk result (rows_then (H.FileTree.meaning resolver.old.host) (P.Policy.allowed resolver.old.policy) (tables resolver.old.settings) sheet.now self.new ≡ rows_then (H.FileTree.meaning resolver.old.host) (P.Policy.allowed resolver.old.policy) (tables resolver.old.settings) sheet.now self.old ++ row_of (H.FileTree.meaning resolver.old.host) (P.Policy.allowed resolver.old.policy) (tables resolver.old.settings) (task_in sheet.now task)) }
        ensures settings_and_policy_stay { (resolver.new.settings ≡ resolver.old.settings) × (resolver.new.policy ≡ resolver.old.policy) }
        ensures same_meaning { H.FileTree.meaning resolver.new.host ≡ H.FileTree.meaning resolver.old.host }
        ensures still_sound { H.FileTree.sound resolver.new.host }
    {
        match task {
            Task::Refused(refusal) => self.tell(resolver, sheet, refusal),
            Task::Resolve { directory, request } => {
                self.wait(resolver, sheet, Call::Resolve { directory, request })
            }
            Task::Forget => self.wait(resolver, sheet, Call::Forget),
        }
    }
}

/// Answers what the lines of a sheet left to do, in their order: the rows are those of the definition.
pub fn answer<H: Host, P: Policy>(
    alloc: Global,
    resolver: &mut Resolver<H, P>,
    sheet: &[u8],
    tasks: &[Task],
) -> Result<Vec<u8>, AllocError>
    requires sound { H.FileTree.sound resolver.old.host }
    ensures row_behind_row { IfOk result (λ rows. rows.items ≡ rows_of (H.FileTree.meaning resolver.old.host) (P.Policy.allowed resolver.old.policy) (tables resolver.old.settings) (map (task_in sheet.now) tasks.now)) }
    ensures settings_and_policy_stay { (resolver.new.settings ≡ resolver.old.settings) × (resolver.new.policy ≡ resolver.old.policy) }
    ensures same_meaning { H.FileTree.meaning resolver.new.host ≡ H.FileTree.meaning resolver.old.host }
    ensures still_sound { H.FileTree.sound resolver.new.host }
{
    let mut work = Work::new(alloc);
    for task in tasks {
        work.carry_out(resolver, sheet, *task)?;
    }
    work.flush(resolver, sheet)?;
    Ok(work.rows)
}
