// How the cells of a buffer become one: the sum and the larger of numbers, the smaller of flags.
ghost use Rattle.std.specs.Prelude.{◌≡◌, ℕ, pos, ◌+ℤ◌, min};
ghost use Rattle.laws.specs.Integers.{max_z};
ghost use Rattle.laws.proofs.Machine.{Small};
ghost use Rattle.reducing.specs.Laws.{FoldLaws};
ghost use Rattle.reducing.specs.Sums.{SumRoom, sum_laws};

// How two cells become one, which cells may be taken in, and where there is room for so many more.
pub trait Fold {
    type Cell: Copy;

    // A place outside a buffer counts as this.
    ghost blank: { Self.Cell };

    ghost op: { Self.Cell → Self.Cell → Self.Cell };

    ghost HasRoom: { ℕ → Self.Cell → Type 0 };

    ghost Fits: { Self.Cell → Type 0 };

    fn combine(x: Self::Cell, y: Self::Cell) -> Self::Cell
        requires { HasRoom 1 x × Fits y }
        ensures { result ≡ op x y };

    ghost laws: { FoldLaws op HasRoom Fits };
}

pub struct Sum;

pub struct Larger;

pub struct Smaller;

// Numbers of 32 bits, whose sums stay within 64.
impl Fold for Sum {
    type Cell = i64;

    ghost blank = { pos 0 };

    ghost op = { ◌+ℤ◌ };

    ghost HasRoom = { SumRoom };

    ghost Fits = { Small };

    ghost laws = { sum_laws };

    fn combine(x: i64, y: i64) -> i64 {
        x + y
    }
}

impl Fold for Larger {
    type Cell = i64;

    ghost blank = { pos 0 };

    ghost op = { max_z };

    ghost HasRoom = { λ n x. Unit {0} };

    ghost Fits = { λ x. Unit {0} };

    ghost laws = { record { takes = λ n x y h q. tt; less = λ n m x h q. tt } };

    fn combine(x: i64, y: i64) -> i64 {
        if x < y { y } else { x }
    }
}

// Of flags.
impl Fold for Smaller {
    type Cell = u8;

    ghost blank = { 0 };

    ghost op = { min };

    ghost HasRoom = { λ n x. Unit {0} };

    ghost Fits = { λ x. Unit {0} };

    ghost laws = { record { takes = λ n x y h q. tt; less = λ n m x h q. tt } };

    fn combine(x: u8, y: u8) -> u8 {
        if y < x { y } else { x }
    }
}
