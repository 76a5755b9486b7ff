//! Each command, and what stands near it and is refused.
use crate::told::reads;
use std::test::Fail;

#[test]
fn commands_with_no_argument_take_none(rt: HostRuntime) -> Result<(), Fail> {
    let rows = [
        ("reload\n", "reload|"),
        ("reload now\n", "? bad argument|"),
        ("reload \n", "reload|"),
        ("reload  \n", "? bad argument|"),
        ("Reload\n", "? unknown command|"),
        (" reload\n", "? unknown command|"),
        ("reload\tx\n", "? unknown command|"),
        ("eager\n", "eager|"),
        ("eager m\n", "? bad argument|"),
        ("map\n", "map|"),
        ("map x\n", "? bad argument|"),
        ("shadows\n", "shadows|"),
        ("shadows x\n", "? bad argument|"),
        ("check\n", "check|"),
        ("check x\n", "? bad argument|"),
        ("end\nmap\n", ""),
        ("end x\nmap\n", "? bad argument|map|"),
        ("map", "map|"),
    ];
    for (stream, wanted) in rows {
        reads(&rt, rt.alloc(), stream, wanted)?;
    }
    Ok(())
}

#[test]
fn paths_and_constant_paths_have_their_form(rt: HostRuntime) -> Result<(), Fail> {
    let rows = [
        ("del m/a.rb\n", "del/m/a.rb|"),
        ("del a b/c\n", "del/a b/c|"),
        ("del\n", "? bad argument|"),
        ("del /m\n", "? bad argument|"),
        ("del m//a\n", "? bad argument|"),
        ("del m/../a\n", "? bad argument|"),
        ("del m\ta\n", "? bad argument|"),
        ("eager_dir app/models\n", "eager_dir/app/models|"),
        ("eager_dir m/\n", "? bad argument|"),
        ("load m/a.rb\n", "load/m/a.rb|"),
        ("load .\n", "? bad argument|"),
        ("expect m/a.rb\n", "expect/m/a.rb|"),
        ("expect\n", "? bad argument|"),
        ("eager_ns A::B\n", "eager_ns=A::B|"),
        ("eager_ns Object\n", "eager_ns=Object|"),
        ("eager_ns a\n", "? bad argument|"),
        ("eager_ns A::\n", "? bad argument|"),
        ("eager_ns A:B\n", "? bad argument|"),
        ("eager_ns ::A\n", "? bad argument|"),
        ("eager_ns A \n", "? bad argument|"),
    ];
    for (stream, wanted) in rows {
        reads(&rt, rt.alloc(), stream, wanted)?;
    }
    Ok(())
}

#[test]
fn run_takes_every_rest(rt: HostRuntime) -> Result<(), Fail> {
    let rows = [
        ("run 1\n", "run=1|"),
        ("run  1 \n", "run= 1 |"),
        ("run \n", "run=|"),
        ("run\n", "run=|"),
        ("run # no comment\n", "run=# no comment|"),
        ("run end", "run=end|"),
        ("run1\n", "? unknown command|"),
    ];
    for (stream, wanted) in rows {
        reads(&rt, rt.alloc(), stream, wanted)?;
    }
    Ok(())
}

#[test]
fn numbers_are_digits_within_their_bounds(rt: HostRuntime) -> Result<(), Fail> {
    let rows = [
        ("put m/a.rb 0\nmap\n", "put/m/a.rb=|map|"),
        ("put m/a.rb 0002\na\nb\nmap\n", "put/m/a.rb=a\nb\n|map|"),
        ("put m/a.rb\nmap\n", "? bad argument|map|"),
        ("put 1\nmap\n", "? bad argument|map|"),
        ("put m/a.rb \nmap\n", "? bad argument|map|"),
        ("put m/a.rb 1 \nmap\n", "? bad argument|map|"),
        ("put m/a.rb x\nmap\n", "? bad argument|map|"),
        ("put m/a.rb +1\nmap\n", "? bad argument|map|"),
        ("put m/a.rb -1\nmap\n", "? bad argument|map|"),
        ("put m/a.rb 1000001\nmap\n", "? bad argument|map|"),
        ("put m/a.rb 1000000\nmap\n", "? input ended|"),
        ("put /m 1\nmap\n", "? bad argument|map|"),
        ("put my dir/a.rb 1\nx\nmap\n", "put/my dir/a.rb=x\n|map|"),
        ("put m/a.rb 1 1\nx\nmap\n", "put/m/a.rb 1=x\n|map|"),
        ("runs 1\n2\nmap\n", "run=2|map|"),
        ("runs 0\nmap\n", "? bad argument|map|"),
        ("runs 10001\nmap\n", "? bad argument|map|"),
        ("runs 10000\nmap\n", "? input ended|"),
        ("runs\nmap\n", "? bad argument|map|"),
        ("runs 1 \nmap\n", "? bad argument|map|"),
        ("runs  1\nmap\n", "? bad argument|map|"),
        (
            "runs 9999999999999999999999999999999999999999\nmap\n",
            "? bad argument|map|",
        ),
        (
            "put a 0000000000000000000000000000000000000001\nx\nmap\n",
            "put/a=x\n|map|",
        ),
    ];
    for (stream, wanted) in rows {
        reads(&rt, rt.alloc(), stream, wanted)?;
    }
    Ok(())
}
