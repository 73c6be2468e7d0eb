//! Conversion between numbers and variants by a table.

/// Converts between numbers and the variants of a type by a table, which has a number for each variant.
///
/// `read` returns the variant of a number, or None; a value in the variant is read from the second number. `write` returns the number of a
/// variant, and that of its value, or 0. For a value that is not a number, the table names the functions that read and write it.
macro_rules! numbers {
    (read $number:ident, $more:ident,
        $kind:ident { $($n:literal $name:ident $(($held:ident $(: $at:ident, $of:ident)?))?),* }) => {
        match $number {
            $($n => numbers!(@held $kind $name $($held $more $($at)?)?),)*
            _ => None,
        }
    };
    (write $given:ident, $kind:ident { $($n:literal $name:ident $(($held:ident $(: $at:ident, $of:ident)?))?),* }) => {
        match $given {
            $($kind::$name $(($held))? => ($n, numbers!(@number $($held $($of)?)?)),)*
        }
    };
    (@held $kind:ident $name:ident) => {
        Some($kind::$name)
    };
    (@held $kind:ident $name:ident $held:ident $more:ident) => {
        Some($kind::$name($more))
    };
    (@held $kind:ident $name:ident $held:ident $more:ident $at:ident) => {
        match $at($more) {
            Some($held) => Some($kind::$name($held)),
            None => None,
        }
    };
    (@number) => {
        0
    };
    (@number $held:ident) => {
        $held
    };
    (@number $held:ident $of:ident) => {
        $of($held)
    };
}

pub(crate) use numbers;
