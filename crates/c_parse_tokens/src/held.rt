//! Steps of the parser that drop what was read where a later step fails, and the reading of
//! repetitions.

/// What a step gave. Where it failed, what was read before is dropped, each value by one call, and
/// the function fails. Proofs of functions that read step after step are much shorter so than with
/// `?`.
#[macro_export]
macro_rules! try_with {
    ($step:expr; $($held:ident),+) => {
        match $step {
            Ok(read) => read,
            Err(fault) => {
                $(drop($held);)+
                return Err(fault);
            }
        }
    };
}

/// Reads a repetition into this list, and returns it from the caller: while the test holds, one
/// more element is read and put at the end. Each element takes a turn of the fuel.
#[macro_export]
macro_rules! read_list {
    ($list:ident, $turn:ident in $fuel:expr; $goes_on:expr; $element:expr) => {{
        for $turn in 0..$fuel {
            if !$goes_on {
                return Ok($list);
            }
            let element = $element;
            $list.push(element)?;
        }
        Err(Fault::OutOfFuel)
    }};
}
