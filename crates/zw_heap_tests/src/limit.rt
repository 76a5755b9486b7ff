//! Limits of texts.
ghost use Rattle.std.specs.Prelude.{◌≡◌, ◌<◌, IfOk, length};

use std::alloc::Global;
use std::test::Fail;
use zw_heap::{ArrayRef, Heap, HeapFault, Value};
use zw_names::Names;
use zw_show::{inspect, quoted};

fn repeated(alloc: Global, piece: &str, count: usize) -> Result<String, Fail> {
    let mut text = String::new(alloc);
    for _ in 0..count {
        text.push_str(piece)?;
    }
    Ok(text)
}

fn is_quoted(alloc: Global, piece: &str, count: usize) -> Result<bool, Fail> {
    let text = repeated(alloc, piece, count)?;
    Ok(quoted(alloc, text.as_str()).is_ok())
}

#[test]
fn the_longest_text_is_quoted(rt: HostRuntime) -> Result<(), Fail> {
    assert!(rt; is_quoted(rt.alloc(), "a", 1_048_574)?);
    assert!(rt; !is_quoted(rt.alloc(), "a", 1_048_575)?);
    assert!(rt; is_quoted(rt.alloc(), "\n", 524_287)?);
    assert!(rt; !is_quoted(rt.alloc(), "\n", 524_288)?);
    Ok(())
}

/// An array in which so many stand in one another, each twice in the next.
fn doubled(heap: &mut Heap, levels: usize) -> Result<ArrayRef, HeapFault>
    ensures held { IfOk result (λ array. array.0 < length heap.new.arrays) }
    ensures names { heap.new.names ≡ heap.old.names }
{
    let mut array = heap.make_array(&[])?;
    for _ in 1..levels {
        array = heap.make_array(&[Value::Array(array), Value::Array(array)])?;
    }
    Ok(array)
}

fn is_told(alloc: Global, levels: usize) -> Result<bool, Fail> {
    let mut names = Names::new(alloc)?;
    let mut heap = Heap::new(alloc, &mut names)?;
    let array = doubled(&mut heap, levels)?;
    Ok(inspect(alloc, &heap, &names, Value::Array(array)).is_ok())
}

#[test]
fn an_array_that_doubles_is_told_as_too_long(rt: HostRuntime) -> Result<(), Fail> {
    assert!(rt; is_told(rt.alloc(), 18)?);
    assert!(rt; !is_told(rt.alloc(), 19)?);
    assert!(rt; !is_told(rt.alloc(), 100)?);
    Ok(())
}
