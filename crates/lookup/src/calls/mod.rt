// Calls that stand open in one another. The structs stand alone in their file: the definitions in specs/ name them.
use alias::Progress;
use candidates::Walk;
use texts::Place;

pub(crate) mod answer;
mod area;
mod context;
mod labels;
mod round;
mod run;
mod trying;
mod turn;
mod way;
mod writing;

// Texts are told by their places in the work text, which lasts as long as the lookup.
/// Why a lookup ends without a path.
#[derive(Clone, Copy)]
pub(crate) enum Fault {
    Empty(Place),
    NotFound(Place),
    // the request, and the label by its place in the table
    Unmatched(Place, usize),
    Ignored(Place),
    Recursion,
    TooLong,
    BrokenManifest(Place),
    BrokenLookup(Place),
}

/// What comes back from an open call: a path, nothing, or a fault.
pub(crate) type Answer = Result<Option<Place>, Fault>;

/// What goes with a lookup from round to round: the rounds run, whether a request is fully specified, query and fragment.
#[derive(Clone, Copy)]
pub(crate) struct ResolveContext {
    rounds: usize,
    fully_specified: bool,
    query: Option<Place>,
    fragment: Option<Place>,
}

/// Where an open call stands.
#[derive(Clone, Copy)]
enum Stage {
    // a text that starts a round
    Require,
    // a path that was tried with its fragment, which is put back
    Marked(Place),
    // the labels on a request
    Labels(Progress),
    // the candidates of a path, with the fully specified of their beginning
    Candidates(Place, bool, Walk),
    // the labels on a candidate
    Tested(Progress),
}

/// What an open call was asked: how many rounds were run before its own, and its directory and its text in the work text.
#[derive(Clone, Copy)]
struct Asked {
    round: usize,
    directory: Place,
    text: Place,
}

/// An open call: what it was asked, and where it stands.
#[derive(Clone, Copy)]
pub struct OpenCall {
    asked: Asked,
    stage: Stage,
}

/// What an open call does next.
#[derive(Clone, Copy)]
enum Move {
    // it ends
    Return(Answer),
    // it goes on
    Stay(OpenCall),
    // it waits for another
    Open(OpenCall, OpenCall),
}
