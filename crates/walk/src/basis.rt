// What a search goes by, the same at each of its places.
ghost use Rattle.filter.specs.Sieve.{Sieve};
ghost use Rattle.listing.specs.Asked.{query_by};

use image::Header;
use listing::asked::Asked;

// The image with its index and its counts; what is asked, with the bytes of the path and of the word; and the filter's index of forms, with the sets of the word.
// The fact is that there is a sieve, since a sieve itself may be had in more than one way: `sieve_had` in `walk/proofs/Sieved` gets it back.
#[derive(Clone, Copy)]
pub struct Basis<'a> {
    pub image: &'a [u8],
    pub index: &'a [u8],
    pub h: Header,
    pub asked: Asked,
    pub path: &'a [u8],
    pub word: &'a [u8],
    pub forms: &'a [u8],
    pub masks: &'a [u64],
    pub reach: &'a [u64],
    pub ghost sieve: { ∥ Sieve image.now (query_by asked path.now word.now) forms.now masks.now reach.now ∥₁ },
}
