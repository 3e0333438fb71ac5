// What a call tells in numbers, as the C interface has it.
ghost use Rattle.std.specs.Prelude.{◌≡◌};
ghost use Rattle.std.specs.Result.{result_unwrap_or};
ghost use Rattle.rules.specs.Answers.{refused_by, said_stop};
ghost use Rattle.exports.specs.Told.{number_told, bucket_told};

use rules::{Refusal, Stop};

// 0 where done, else the number of what refuses.
pub fn number(done: Result<(), Refusal>) -> u64
    ensures { result ≡ refused_by done }
{
    match done {
        Ok(()) => 0,
        Err(why) => why.number(),
    }
}

// The same; what is done goes into its place.
pub fn tell<T: Copy>(answer: Result<T, Refusal>, place: &mut T) -> u64
    ensures number { result ≡ refused_by answer }
    ensures value { place.new ≡ result_unwrap_or answer place.old }
{
    match answer {
        Ok(value) => {
            *place = value;
            0
        }
        Err(why) => why.number(),
    }
}

// The number of a refusal; the bucket that it names goes into its place.
pub fn tell_stop(stop: Stop, bucket: &mut u64) -> u64
    ensures answer { result ≡ number_told (said_stop stop) }
    ensures named { bucket.new ≡ bucket_told (said_stop stop) bucket.old }
{
    if let Some(b) = stop.bucket {
        *bucket = b;
    }
    stop.why.number()
}
