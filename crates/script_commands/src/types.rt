// What a line of a script says, as data.
use script_runs::types::RunRequest;

// What a poke alters, with the numbers of its line: the stage; K, G, S; the size of a level; kind and half-width of a vertex; the
// ends and the rating of a segment; the number that a vertex is remembered by; whether the plan was loaded as tangled; preliminary and final
// position of a vertex; pass and level of a placing; and of a placing's box its vertex and position. Levels, vertices, segments,
// placings and boxes are counted from 0.
#[derive(Clone, Copy)]
pub enum Poke {
    Empty,
    Loaded(usize, usize),
    Drawn(usize, usize, usize),
    Levels(usize),
    Gap(usize),
    Spacing(usize),
    Size(usize, usize),
    Vertex(usize, bool, usize),
    Segment(usize, usize, usize, usize),
    Remembered(usize, usize),
    Tangled(bool),
    Preliminary(usize, i64),
    Final(usize, i64),
    Pass(usize, usize),
    Level(usize, usize),
    Listed(usize, usize, usize, i64),
}

// A command. The text of Load, LoadTangled and Walk lies in a lent buffer, and the last number is how many bytes it has; the
// lists of PlaceRun lie in others.
#[derive(Clone, Copy)]
pub enum Command {
    Skip,
    Unknown,
    Load(usize),
    LoadTangled(usize),
    Draw,
    Clear,
    Stage,
    Line(usize, usize),
    Lines,
    TextLine(usize, usize),
    Texts,
    Mark(usize),
    Marks,
    Walk(usize, usize),
    PlaceRun(RunRequest),
    Poke(Poke),
}
