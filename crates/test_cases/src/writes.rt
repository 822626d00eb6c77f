// Lot slips written.
use crate::printed::{Hex, room_kept, with_values};
use crate::words::Words;
use anyhow::Result;
use slip::{Date, Printed, Said};
use slipseal::Written;

pub(crate) fn write(rt: &impl Print, mut words: Words) -> Result<()> {
    let supplier = words.supplier()?;
    let date = Date {
        year: words.number()?,
        month: words.number()?,
        day: words.number()?,
    };
    let lot = words.bytes()?;
    let amount = words.number()?;
    let mut room = words.room()?;
    let lot = &lot;
    let said = Said { date, lot, amount };
    let written = slip::write(supplier.agreement, &supplier.keys, said, &mut room);
    match written {
        Ok(Printed { length, calls }) => {
            print!(rt; "written {length} bytes {calls} calls {}", Hex(&room))?;
        }
        Err(refusal) => {
            let number = refusal.number();
            // as it is handed to C
            let told = Written::from(written);
            let values = with_values([told.length, told.calls] != [0; 2]);
            print!(rt; "refused {number}{values} {}", room_kept(&room))?;
        }
    }
    Ok(())
}
