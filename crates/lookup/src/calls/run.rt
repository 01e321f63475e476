// A lookup as a table of open calls: the top one moves, until none is open.
ghost use Rattle.std.specs.Prelude.{◌≡◌, ◌+◌, ◌*◌, ◌≤◌, ◌++◌, length};
ghost use Rattle.stack.specs.Items.{capacity};
ghost use Rattle.settings.specs.Meant.{tables};
ghost use Rattle.lookup.specs.Lookups.{require};
ghost use Rattle.lookup.specs.Opened.{Short, ended, first_unit};
ghost use Rattle.lookup.specs.Outcomes.{fresh};
ghost use Rattle.lookup.specs.Towers.{piled, told_then};
ghost use Rattle.lookup.specs.Turns.{Sound, rows_of};

use crate::calls::area::put;
use crate::calls::turn::step;
use crate::calls::{Answer, Asked, Move, OpenCall, ResolveContext, Stage};
use settings::Settings;
use stack::Stack;
use tree::{FileTree, Host, Policy};

impl Move {
    // Puts what a move leaves open on the table, and says what the top call is told.
    #[inline(always)]
    fn put_on(self, table: &mut Stack<OpenCall>) -> Answer
        requires room { length (rows_of self ++ piled table.old) ≤ capacity table.old }
        ensures calls_on_top { piled table.new ≡ rows_of self ++ piled table.old }
        ensures told_to_the_top { result ≡ told_then self }
        ensures same_capacity { capacity table.new ≡ capacity table.old }
    {
        match self {
            Move::Return(answer) => answer,
            Move::Stay(row) => {
                table.push(row).unwrap();
                Ok(None)
            }
            Move::Open(row, child) => {
                table.push(row).unwrap();
                table.push(child).unwrap();
                Ok(None)
            }
        }
    }
}

/// The lookup of a request from a directory: what it ends in, and the context then.
pub(crate) fn run<H: Host, P: Policy>(
    host: &mut H,
    policy: &P,
    settings: &Settings,
    work: &mut [u8],
    rows: &mut [OpenCall],
    limit: usize,
    directory: &[u8],
    request: &[u8],
) -> (Answer, ResolveContext)
    requires sound { H.FileTree.sound host.old }
    requires few { limit ≤ 65536 }
    requires room { 256 * first_unit limit ≤ length work.old }
    requires rows { 3 * limit + 1 ≤ length rows.old }
    requires short_directory { length directory.now ≤ 255 }
    requires short_request { length request.now ≤ 255 }
    ensures ends_as_defined { ended work.new (tables settings.now).aliases result.0 result.1 ≡ require (H.FileTree.meaning host.old) (P.Policy.allowed policy.now) (tables settings.now) limit limit directory.now request.now (fresh (tables settings.now)) }
    ensures ends_in_a_short_text { Short result.0 }
    ensures sound_context { Sound limit result.1 }
    ensures same_text_area { length work.new ≡ length work.old }
    ensures same_meaning { H.FileTree.meaning host.new ≡ H.FileTree.meaning host.old }
    ensures still_sound { H.FileTree.sound host.new }
{
    let directory = put(work, 0, directory);
    let text = put(work, 1, request);
    let asked = Asked {
        round: 0,
        directory,
        text,
    };
    let mut context = ResolveContext::fresh(settings.fully_specified());
    let mut table = Stack::new(rows);
    let stage = Stage::Require;
    let mut back = Move::Stay(OpenCall { asked, stage }).put_on(&mut table);
    while let Some(row) = table.pop() {
        let (next, then) = step(host, policy, settings, work, limit, row, back, context);
        context = then;
        back = next.put_on(&mut table);
    }
    (back, context)
}
