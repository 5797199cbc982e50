// Gatherings over lent bytes: the gathering is read from them, the library's method is called, and the state that it hands back is written.
ghost use Rattle.std.specs.Prelude.{◌≡◌, eqb};
ghost use Rattle.record.specs.Fields.{record_of};
ghost use Rattle.gathering.specs.State.{fresh_state};
ghost use Rattle.layout.specs.RecordBytes.{record_bytes, record_in};
ghost use Rattle.layout.specs.GatheringBytes.{gathering_bytes, gathering_in};
ghost use Rattle.mofuleka.specs.Answers.{refusal_word};
ghost use Rattle.mofuleka.specs.Images.{lent_after, offset_bytes, alpha_bytes, kta_bytes};
ghost use Rattle.mofuleka.specs.Gatherings.{stored_with_block, stored_merged, stored_words, short_gathering, accept_refusal, merge_refusal};
ghost use Rattle.mofuleka.specs.Gatherings.{gathering_status_answer, gathering_word_answer, gathered_refusal};

// Makes the bytes a fresh gathering.
#[unsafe(no_mangle)]
pub extern "C" fn mofuleka_gathering_fresh(gathering: &mut [u8]) -> u64
    ensures answer { result ≡ refusal_word (short_gathering gathering.old) }
    ensures gathering { gathering.new ≡ lent_after (eqb result 0) (gathering_bytes fresh_state) gathering.old }
    ensures stored { result ≡ 0 → gathering_in gathering.new ≡ fresh_state }
{
    mofuleka::mofuleka_gathering_fresh(gathering)
}

// Takes a block into a gathering.
#[unsafe(no_mangle)]
pub extern "C" fn mofuleka_gathering_accept(gathering: &mut [u8], block: &[u8]) -> u64
    ensures answer { result ≡ refusal_word (accept_refusal gathering.old block.now) }
    ensures gathering { gathering.new ≡ lent_after (eqb result 0) (gathering_bytes (stored_with_block gathering.old block.now).gathering) gathering.old }
    ensures stored { result ≡ 0 → gathering_in gathering.new ≡ (stored_with_block gathering.old block.now).gathering }
{
    mofuleka::mofuleka_gathering_accept(gathering, block)
}

// Merges another gathering into a gathering.
#[unsafe(no_mangle)]
pub extern "C" fn mofuleka_gathering_merge(gathering: &mut [u8], other: &[u8]) -> u64
    ensures answer { result ≡ refusal_word (merge_refusal gathering.old other.now) }
    ensures gathering { gathering.new ≡ lent_after (eqb result 0) (gathering_bytes (stored_merged gathering.old other.now)) gathering.old }
    ensures stored { result ≡ 0 → gathering_in gathering.new ≡ stored_merged gathering.old other.now }
{
    mofuleka::mofuleka_gathering_merge(gathering, other)
}

// The numbers of missing words and of words in conflict.
#[unsafe(no_mangle)]
pub extern "C" fn mofuleka_gathering_status(gathering: &[u8]) -> u64
    ensures { result ≡ gathering_status_answer gathering.now }
{
    mofuleka::mofuleka_gathering_status(gathering)
}

// What is known of a word.
#[unsafe(no_mangle)]
pub extern "C" fn mofuleka_gathering_word(gathering: &[u8], word: usize) -> u64
    ensures { result ≡ gathering_word_answer gathering.now word }
{
    mofuleka::mofuleka_gathering_word(gathering, word)
}

// Decodes a gathering into the three tables and the record, by the library's method.
#[unsafe(no_mangle)]
pub extern "C" fn mofuleka_gathering_from_data(
    gathering: &[u8],
    offset: &mut [u8],
    alpha: &mut [u8],
    k_ta: &mut [u8],
    record: &mut [u8],
) -> u64
    ensures answer { result ≡ refusal_word (gathered_refusal gathering.now offset.old alpha.old k_ta.old «record».old) }
    ensures offset { offset.new ≡ lent_after (eqb result 0) (offset_bytes (stored_words gathering.now)) offset.old }
    ensures alpha { alpha.new ≡ lent_after (eqb result 0) (alpha_bytes (stored_words gathering.now)) alpha.old }
    ensures k_ta { k_ta.new ≡ lent_after (eqb result 0) (kta_bytes (stored_words gathering.now)) k_ta.old }
    ensures record { «record».new ≡ lent_after (eqb result 0) (record_bytes (record_of (stored_words gathering.now))) «record».old }
    ensures stored { result ≡ 0 → record_in «record».new ≡ record_of (stored_words gathering.now) }
{
    mofuleka::mofuleka_gathering_from_data(gathering, offset, alpha, k_ta, record)
}
