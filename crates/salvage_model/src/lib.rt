// No code: what is left of a torn transmission stands in `specs/` (request 11). Its answer is the writer's, `draft::Outcome`.
#![tactic(auto)]
