ghost use Rattle.std.specs.Prelude.{◌≡◌, ◌<◌, ℤ, pos, None, IsTrue, length, map, slice_index_or};
ghost use Rattle.std.specs.List.{list_all};
ghost use Rattle.index_transform.specs.Values.{has_value, map_value};

use crate::map::OutMap;
use crate::transform::Transform;
use index_intervals::Interval;

impl Transform {
    ghost use Rattle.index_transform.specs.Values.{first_outside, value_at};

    /// The number of one output at an index vector of the effective domain. It may be larger than an index.
    pub fn number(&self, output: usize, index: &[i64]) -> i128
        requires output { output < length self.now.maps }
        requires rank { length index.now ≡ length self.now.domain.dims }
        requires inside { first_outside self.now.domain.dims index.now ≡ None }
        ensures { result ≡ slice_index_or (value_at self.now index.now) output (pos 0) }
    {
        number_of(self.domain().dims.items(), self.maps(), output, index)
    }
}

fn number_of(dims: &[Interval], maps: &[OutMap], output: usize, index: &[i64]) -> i128
    requires output { output < length maps.now }
    requires inside { IsTrue (list_all (has_value dims.now index.now) maps.now) }
    ensures { result ≡ slice_index_or (map (map_value dims.now index.now) maps.now) output (pos 0) }
{
    maps[output].value(dims, index)
}
