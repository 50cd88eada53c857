//! The eight values of an array, taken apart.

ghost use Rattle.std.specs.Prelude.{◌≡◌, length};
ghost use Rattle.shard_table.specs.Eights.{list_of};

/// Eight values, each under a name of its own.
#[derive(Drop)]
pub(crate) struct Eight<T> {
    pub(crate) first: T,
    pub(crate) second: T,
    pub(crate) third: T,
    pub(crate) fourth: T,
    pub(crate) fifth: T,
    pub(crate) sixth: T,
    pub(crate) seventh: T,
    pub(crate) eighth: T,
}

impl<T> Eight<T> {
    /// The values of an array.
    pub(crate) fn of(all: [T; 8]) -> Eight<T>
        requires { length all ≡ 8 }
        ensures { all ≡ list_of result }
    {
        let [first, second, third, fourth, fifth, sixth, seventh, eighth] = all;
        Eight {
            first,
            second,
            third,
            fourth,
            fifth,
            sixth,
            seventh,
            eighth,
        }
    }
}
