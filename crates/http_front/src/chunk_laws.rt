//! Laws of streams. None of these functions does anything: each states a law.
ghost use Rattle.std.specs.Prelude.{◌≡◌, ℕ, List, ◌++◌, All};
ghost use Rattle.http_front.specs.Streams.{IsFrame, chunks_of, last_chunk, stream_of};

/// No two lists of frames, none of them empty, have one stream.
pub fn streams_differ()
    ensures one { (frames others : List (List ℕ)) → All IsFrame frames → All IsFrame others
        → stream_of frames ≡ stream_of others → frames ≡ others }
{}

/// Where the body ends, and which frames it has, is told by its bytes alone, whatever comes behind.
pub fn streams_are_read_one_way()
    ensures one { (frames others : List (List ℕ)) (rest behind : List ℕ)
        → All IsFrame frames → All IsFrame others
        → chunks_of frames ++ (last_chunk ++ rest) ≡ chunks_of others ++ (last_chunk ++ behind)
        → (frames ≡ others) × (rest ≡ behind) }
{}
