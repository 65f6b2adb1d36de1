ghost use Rattle.std.specs.Prelude.{◌≡◌, ◌++◌, OnOk, string_bytes};
ghost use Rattle.flight_gen.specs.Generated.{each_below, component, child, program};

use flight_value::Memory;

const HEAD: &str =
    "client Tag = [\"./tag.js\",[],\"Tag\"];\nserver Item(row) = <li><Tag label={row.name} next={row.next}/></li>;\n";

/// Appends the program of so many components.
pub fn push_program(out: &mut String, count: u32) -> Result<(), Memory>
    ensures { OnOk result (string_bytes out.new ≡ string_bytes out.old ++ program count) }
{
    out.push_str(HEAD)?;
    push_components(out, count)?;
    out.push_str("server App() = <ul>")?;
    push_children(out, count)?;
    out.push_str("</ul>;\n")?;
    Ok(())
}

fn push_components(out: &mut String, count: u32) -> Result<(), Memory>
    ensures { OnOk result (string_bytes out.new ≡ string_bytes out.old ++ each_below component count) }
{
    for number in 0..count {
        push_component(out, number)?;
    }
    Ok(())
}

fn push_component(out: &mut String, number: u32) -> Result<(), Memory>
    ensures { OnOk result (string_bytes out.new ≡ string_bytes out.old ++ component number) }
{
    write!(out, "server P{number}() = for row in use s{number}")?;
    out.push_str(" give <Item row={row}/>;\n")?;
    Ok(())
}

fn push_children(out: &mut String, count: u32) -> Result<(), Memory>
    ensures { OnOk result (string_bytes out.new ≡ string_bytes out.old ++ each_below child count) }
{
    for number in 0..count {
        push_child(out, number)?;
    }
    Ok(())
}

fn push_child(out: &mut String, number: u32) -> Result<(), Memory>
    ensures { OnOk result (string_bytes out.new ≡ string_bytes out.old ++ child number) }
{
    write!(out, "<P{number}/>")?;
    Ok(())
}
