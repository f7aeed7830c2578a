// The numbers that the header of an image says; where the image is too short for one, its bytes that are not there count as 0.
#![tactic(auto, unfolding(crate::specs::Fields::axes_field, crate::specs::Fields::count_field, crate::specs::Fields::offset_field, crate::specs::Fields::values_field, crate::specs::Fields::shape_of))]

ghost use Rattle.std.specs.Prelude.{◌≡◌, ◌^◌, ◌≤◌};
ghost use Rattle.little_endian.specs.Words.{word_at};
ghost use Rattle.image.specs.Fields.{axes_field, count_field, offset_field, values_field, shape_of};
ghost use Rattle.image.specs.Scaffolding.{Number};

use layout::Shape;
use std::array;

// A field of n bytes.
pub(crate) fn field(img: &[u8], at: usize, n: usize) -> usize
    requires { n ≤ 4 }
    ensures { Number (word_at n img.now at) (256 ^ n) result }
{
    little_endian::word(img, at, n) as usize
}

// How many axes.
pub(crate) fn axes_of(img: &[u8]) -> usize
    ensures { Number (axes_field img.now) 256 result }
{
    field(img, 1, 1)
}

// The count of nodes of an axis.
pub(crate) fn count_of(img: &[u8], a: usize) -> usize
    requires { a ≤ 4 }
    ensures { Number (count_field img.now a) 65536 result }
{
    field(img, 8 + 2 * a, 2)
}

// Where the nodes of an axis stand.
pub(crate) fn offset_of(img: &[u8], a: usize) -> usize
    requires { a ≤ 4 }
    ensures { Number (offset_field img.now a) 4294967296 result }
{
    field(img, 16 + 4 * a, 4)
}

// Where the values stand.
pub(crate) fn values_at(img: &[u8]) -> usize
    ensures { Number (values_field img.now) 4294967296 result }
{
    field(img, 32, 4)
}

// The shape.
pub(crate) fn shape_of(img: &[u8]) -> Shape
    ensures { result ≡ shape_of img.now }
{
    Shape {
        axes: axes_of(img),
        counts: array::from_fn(|a| count_of(img, a)),
    }
}
