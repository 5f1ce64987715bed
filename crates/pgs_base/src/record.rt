// What a caller's list holds for each record that is read.
ghost use Rattle.std.specs.Prelude.{◌≡◌};

// A cell of a caller's list, made of a record of that type.
// Stays a trait: `From` would do, but the promise of its `from` is a relation, `from_gives`, and the contracts equate the whole list with
// a function of the records.
pub trait FromRecord<T>: Copy {
    ghost from_record: { T → Self };

    fn from_record(item: T) -> Self
        ensures { result ≡ from_record item };
}

// A record is made of itself.
impl<T: Copy> FromRecord<T> for T {
    ghost from_record = { λ item. item };

    fn from_record(item: T) -> T {
        item
    }
}
