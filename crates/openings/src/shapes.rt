//! What a term comes to, without its nodes: enough to tidy by and to count.
ghost use Rattle.std.specs.Prelude.{◌≡◌, ◌+◌, min};
ghost use Rattle.openings.specs.Rounds.{of};
ghost use Rattle.openings.specs.Shapes.{size, ends, leaf_shape, choice_node, both_node, follow_node, tidied_choice, tidied_both, followed, choice_shape, both_shape, follow_shape, then_shape};

/// The most nodes that a term may have.
pub const MOST_NODES: usize = 256;

/// Sizes are held at this: one node more than a term may have.
const FULL: u16 = MOST_NODES as u16 + 1;

/// What a term comes to.
#[derive(Clone, Copy, Debug, PartialEq, Eq)]
pub enum Shape {
    /// No records can perform it any more.
    Lost,
    /// Nothing is left to do.
    Done,
    /// Any other term: how many nodes it has, held at 257, and whether it may end as it stands.
    Open { size: u16, ends: bool },
}

impl Shape {
    /// A step that is waited for.
    pub fn leaf() -> Shape
        ensures { result ≡ leaf_shape }
    {
        Shape::Open {
            size: 1,
            ends: false,
        }
    }

    /// How many nodes the term has, held at 257.
    pub fn size(self) -> u16
        ensures { result ≡ size self }
    {
        match self {
            Shape::Lost | Shape::Done => 1,
            Shape::Open { size, .. } => size,
        }
    }

    /// May the term end as it stands?
    pub fn ends(self) -> bool
        ensures { result ≡ ends self }
    {
        match self {
            Shape::Lost => false,
            Shape::Done => true,
            Shape::Open { ends, .. } => ends,
        }
    }

    /// A choice as it stands.
    pub fn choice_node(l: Shape, r: Shape) -> Shape
        ensures { result ≡ choice_node l r }
    {
        Shape::Open {
            size: over(l.size().saturating_add(r.size())),
            ends: l.ends() || r.ends(),
        }
    }

    /// A both as it stands.
    pub fn both_node(l: Shape, r: Shape) -> Shape
        ensures { result ≡ both_node l r }
    {
        Shape::Open {
            size: over(l.size().saturating_add(r.size())),
            ends: l.ends() && r.ends(),
        }
    }

    /// A follow as it stands.
    pub fn follow_node(t: Shape) -> Shape
        ensures { result ≡ follow_node t }
    {
        Shape::Open {
            size: over(t.size()),
            ends: false,
        }
    }

    /// A choice, tidied.
    pub fn choice_of(l: Shape, r: Shape) -> Shape
        ensures { result ≡ choice_shape l r }
    {
        match Tidied::of_choice(l, r) {
            Tidied::Left => l,
            Tidied::Right => r,
            Tidied::Whole => Shape::choice_node(l, r),
        }
    }

    /// A both, tidied.
    pub fn both_of(l: Shape, r: Shape) -> Shape
        ensures { result ≡ both_shape l r }
    {
        match Tidied::of_both(l, r) {
            None => Shape::Lost,
            Some(Tidied::Left) => l,
            Some(Tidied::Right) => r,
            Some(Tidied::Whole) => Shape::both_node(l, r),
        }
    }

    /// A follow of a term, tidied.
    pub fn follow_of(t: Shape) -> Shape
        ensures { result ≡ follow_shape t }
    {
        Shape::then_of(t, Shape::Lost)
    }

    /// A term and then a clause that opens to `o`, tidied.
    pub fn then_of(t: Shape, o: Shape) -> Shape
        ensures { result ≡ then_shape t o }
    {
        match Followed::of(t, o) {
            None => Shape::Lost,
            Some(Followed::Clause) => o,
            Some(Followed::Follow) => Shape::follow_node(t),
            Some(Followed::Skip) => Shape::choice_node(Shape::follow_node(t), o),
        }
    }
}

/// What tidying leaves of a choice or a both.
#[derive(Clone, Copy, Debug, PartialEq, Eq)]
pub enum Tidied {
    /// The left side alone.
    Left,
    /// The right side alone.
    Right,
    /// The node with both sides.
    Whole,
}

impl Tidied {
    /// A choice with a lost side is the other side.
    pub fn of_choice(l: Shape, r: Shape) -> Tidied
        ensures { result ≡ tidied_choice l r }
    {
        match (l, r) {
            (Shape::Lost, _) => Tidied::Right,
            (_, Shape::Lost) => Tidied::Left,
            _ => Tidied::Whole,
        }
    }

    /// A both with a lost side is lost, which is `None`; with a done side it is the other side.
    pub fn of_both(l: Shape, r: Shape) -> Option<Tidied>
        ensures { result ≡ tidied_both l r }
    {
        match (l, r) {
            (Shape::Lost, _) | (_, Shape::Lost) => None,
            (Shape::Done, _) => Some(Tidied::Right),
            (_, Shape::Done) => Some(Tidied::Left),
            _ => Some(Tidied::Whole),
        }
    }
}

/// What tidying leaves of a term with a clause behind it.
#[derive(Clone, Copy, Debug, PartialEq, Eq)]
pub enum Followed {
    /// What the clause opens to.
    Clause,
    /// The term and then the clause.
    Follow,
    /// The same, or what the clause opens to at once.
    Skip,
}

impl Followed {
    /// Behind a lost term all is lost, which is `None`, and behind a done one the clause opens. Where the term may
    /// end, the clause may also open at once, unless it opens to lost.
    pub fn of(t: Shape, o: Shape) -> Option<Followed>
        ensures { result ≡ followed t o }
    {
        match t {
            Shape::Lost => None,
            Shape::Done => Some(Followed::Clause),
            Shape::Open { ends, .. } if ends && o != Shape::Lost => Some(Followed::Skip),
            Shape::Open { .. } => Some(Followed::Follow),
        }
    }
}

/// The size of a node over parts of so many nodes.
fn over(parts: u16) -> u16
    ensures { result ≡ min (1 + parts) 257 }
{
    parts.saturating_add(1).min(FULL)
}

/// What stands at a place of a table, and lost past its end.
pub fn shape_at(shapes: &[Shape], place: usize) -> Shape
    ensures { result ≡ of shapes.now place }
{
    shapes.get(place).copied().unwrap_or(Shape::Lost)
}
