//! Code that stands in functions of each text.

/// Returns the case that has the name of the form, with the numbers at these places of the line as
/// its fields. Forms without such a case have arms of their own.
#[macro_export]
macro_rules! by_numbers {
    (($form:expr, $numbers:expr) $forms:ident => $cases:ident {
        $($name:ident($($field:ident: $place:literal),+),)+
    } else {
        $($arms:tt)+
    }) => {
        match $form {
            $($forms::$name => Some($cases::$name {
                $($field: $crate::number_at($numbers, $place) as u32),+
            }),)+
            $($arms)+
        }
    };
}

/// Writes, by the function `put`, the line of the form that has the name of the case. The fields of
/// the case are the numbers of the line. Other cases have arms of their own.
#[macro_export]
macro_rules! put_numbers {
    (($put:ident, $out:expr, $value:expr) $cases:ident => $forms:ident {
        $($name:ident($($field:ident),+),)+
    } else {
        $($arms:tt)+
    }) => {
        match $value {
            $($cases::$name { $($field),+ } => {
                $put($out, $forms::$name, &[$(u64::from(*$field)),+], &[])
            })+
            $($arms)+
        }
    };
}

/// Returns the fault of a text, in a type with the cases `BadLine`, `NoEnd` and `NoMemory`. Bytes
/// after the end are a line that matches no form.
#[macro_export]
macro_rules! fault_of_text {
    ($fault:expr, $faults:ident) => {
        match $fault {
            $crate::TextFault::NoMemory => $faults::NoMemory,
            $crate::TextFault::At(cause, line) => cause.at(line),
            $crate::TextFault::After(line) => $faults::BadLine(line),
            $crate::TextFault::NoEnd => $faults::NoEnd,
        }
    };
}
