//! Configuration texts, read.

ghost use Rattle.std.specs.Prelude.{◌≡◌, Ok, Err, MatchResult};
ghost use Rattle.config_text.specs.Reading.{configuration_in};
ghost use Rattle.config_text.specs.code.TextViews.{request_view, response_view};
ghost use Rattle.config_text.specs.declared.kind.TextKind.TheVariants.{Ask, Tell};

use crate::request::Request;
use crate::response::Response;
use hii_bytes::Cause;

/// The request that a text is (UEFI 2.8, 34.2.1 String Grammar), or its leftmost fault: 80 `BadHeader`, 81 `BadElement`
/// or 82 `BadNumber`.
pub fn read_request(text: &[u8]) -> Result<Request<'_>, Cause>
    ensures { MatchResult result (λ request. configuration_in Ask text.now ≡ Ok (request_view request))
        (λ cause. configuration_in Ask text.now ≡ Err cause) }
{
    Request::read(text)
}

/// The response that a text is (UEFI 2.8, 34.2.1 String Grammar), or its leftmost fault: 80 `BadHeader`, 81 `BadElement`,
/// 82 `BadNumber` or 83 `ValueWidth`.
pub fn read_response(text: &[u8]) -> Result<Response<'_>, Cause>
    ensures { MatchResult result (λ response. configuration_in Tell text.now ≡ Ok (response_view response))
        (λ cause. configuration_in Tell text.now ≡ Err cause) }
{
    Response::read(text)
}
