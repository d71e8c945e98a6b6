ghost use Rattle.stores.specs.Reading.{ReadAt};
ghost use Rattle.stores.specs.Rows.{keys_of, records_of};

use crate::filling::fill;
use crate::row::Row;

// Fills the place with the key of the row at a number, and answers whether there are so many rows.
pub fn read_key<K: Copy, R: Copy>(rows: &[Row<K, R>], number: usize, place: &mut K) -> bool
    ensures { ReadAt (keys_of rows.now) number place.old place.new result }
{
    fill(place, rows.get(number).map(|row| row.key))
}

// Fills the place with the record of the row at a number, and answers whether there are so many rows.
pub fn read_record<K: Copy, R: Copy>(rows: &[Row<K, R>], number: usize, place: &mut R) -> bool
    ensures { ReadAt (records_of rows.now) number place.old place.new result }
{
    fill(place, rows.get(number).map(|row| row.value))
}
