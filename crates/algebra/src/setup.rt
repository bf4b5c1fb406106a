// A setup: the elements that a commitment is made with, in a row that is lent.
ghost use Rattle.std.specs.Prelude.{◌≡◌, ◌%◌, ◌≤◌, length};

pub mod codec;
pub mod methods;

// The row has G_0 to G_(n-1), then H_0 to H_(n-1), then Q.
#[derive(Drop)]
pub struct Setup<'a, G> {
    elements: &'a [G],
    ghost odd: { length elements.now % 2 ≡ 1 },
    ghost few: { length elements.now ≤ 2097153 },
}
