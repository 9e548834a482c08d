//! What `collect` returns.
use fallible_iterator::Fault;
use std::fmt::Debug;
use std::test::Fail;

/// Fails the test where anything else than a `Vec` of these items was made.
pub fn expect_collected<T, E>(made: Result<Vec<T>, Fault<E>>, expected: &[T]) -> Result<(), Fail>
where
    T: Debug + Drop + PartialEq,
    E: Debug + Drop,
{
    let items = made?;
    if items.as_slice() == expected {
        Ok(())
    } else {
        Err(Fail::new(format_args!("collected {items:?}, and not {expected:?}")))
    }
}

/// Fails the test where the answer isn't this failure of the source.
pub fn expect_source_fault<C, E>(made: Result<C, Fault<E>>, expected: E) -> Result<(), Fail>
where
    C: Drop,
    E: Debug + Drop + PartialEq,
{
    match made {
        Err(Fault::Source(failure)) => {
            if failure == expected {
                Ok(())
            } else {
                Err(Fail::new(format_args!("failed with {failure:?}, and not {expected:?}")))
            }
        }
        Err(Fault::Memory(_)) => Err(Fail::new("memory was refused")),
        Ok(_) => Err(Fail::new("a collection was made")),
    }
}

/// Fails the test unless an allocation failed.
pub fn expect_refused<C, E>(made: Result<C, Fault<E>>) -> Result<(), Fail>
where
    C: Drop,
    E: Debug + Drop,
{
    match made {
        Err(Fault::Memory(_)) => Ok(()),
        Err(Fault::Source(failure)) => {
            Err(Fail::new(format_args!("the source failed: {failure:?}")))
        }
        Ok(_) => Err(Fail::new("a collection was made")),
    }
}
