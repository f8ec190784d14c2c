// What the reader answers, as a line.
use crate::forms::Form;
use crate::lines::Line;
use crate::scene::Scene;
use crate::words::{BUFFER, put_bytes};
use idms::{Item, Placed, Refusal};

// How many items a datagram has.
fn items_line(line: Line<'_>, count: Result<usize, Refusal>) -> Line<'_> {
    match count {
        Ok(n) => line.came(Form::Items, &[n as u64]),
        Err(r) => line.came(Form::ItemsRefused, &[r.number.number(), r.place as u64]),
    }
}

// The form and the source of an item.
fn shown(item: Item) -> (Form, u32) {
    match item {
        Item::Report(r) => (Form::ItemReport, r.sender),
        Item::Settings(s) => (Form::ItemSettings, s.sender),
        Item::Farewell(source) => (Form::ItemFarewell, source),
    }
}

// The item at the index that a line has.
fn item_line(line: Line<'_>, found: Result<Placed, Refusal>) -> Line<'_> {
    let index = line.values[0];
    match found {
        Ok(placed) => {
            let (form, source) = shown(placed.item);
            line.came(form, &[index, u64::from(source)])
        }
        Err(r) => line.came(
            Form::ItemRefused,
            &[index, r.number.number(), r.place as u64],
        ),
    }
}

// What came of a step that looks at the items of the scene's datagram.
pub(crate) fn look_at_items<'a>(line: Line<'a>, scene: Scene) -> Line<'a> {
    let mut buffer = [0u8; BUFFER];
    let n = put_bytes(scene.datagram, &mut buffer);
    let d = &buffer[..n];
    match line.form {
        Form::Items | Form::ItemsRefused => items_line(line, rtcp::count_items(d, scene.reduced)),
        _ => item_line(
            line,
            rtcp::item_at(d, scene.reduced, line.values[0] as usize),
        ),
    }
}
