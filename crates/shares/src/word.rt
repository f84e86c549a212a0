// One word of many: its record, its place among the replies, its share of the rows.
ghost use Rattle.std.specs.Prelude.{◌≡◌, length};
ghost use Rattle.model.specs.Blocks.{header};
ghost use Rattle.model.specs.Refusals.{accepted, image_verdict};
ghost use Rattle.model.specs.Rows.{row_count, reply_number};
ghost use Rattle.image.specs.Header.{header_of};
ghost use Rattle.prepare.specs.Indexed.{Indexed};
ghost use Rattle.shares.specs.Words.{low_first, record_reply, after_record};

use image::Header;
use refusal::Refusal;

// The reply's number, as plain analysis of the record's first letters gives it, and the rows. A length byte over 32 is refused with 9.
fn list_record(image: &[u8], index: &[u8], h: Header, asked: &[u8], share: &mut [u8]) -> u64
    requires image_value { image_verdict image.now ≡ accepted }
    requires h_value { header_of h ≡ header image.now }
    requires indexed { Indexed image.now index.now }
    requires asked_len { length asked.now ≡ 33 }
    ensures reply { result ≡ reply_number (record_reply image.now asked.now (row_count share.old)) }
    ensures bytes { share.new ≡ after_record image.now asked.now share.old }
{
    let n = image::byte_at(asked, 0);
    if n > 32 {
        return rows::reply_number(Err(Refusal::WordLength));
    }
    let reply = analyser::indexed::analyse(image, index, h, &asked[1..n + 1], share);
    rows::reply_number(reply)
}

// The reply's number in eight bytes, the low byte first, and the rows.
pub fn answer_word(
    image: &[u8],
    index: &[u8],
    h: Header,
    asked: &[u8],
    place: &mut [u8],
    share: &mut [u8],
)
    requires image_value { image_verdict image.now ≡ accepted }
    requires h_value { header_of h ≡ header image.now }
    requires indexed { Indexed image.now index.now }
    requires asked_len { length asked.now ≡ 33 }
    requires place_len { length place.old ≡ 8 }
    ensures reply { place.new ≡ low_first 8 (reply_number (record_reply image.now asked.now (row_count share.old))) }
    ensures bytes { share.new ≡ after_record image.now asked.now share.old }
{
    let number = list_record(image, index, h, asked, share);
    place.copy_from_slice(&number.to_le_bytes());
}
