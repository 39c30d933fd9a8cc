//! Tests of texts and shaders: tokens, reading, printing, what is found in a shader, and the adapters of files and streams,
//! on texts that were worked out by hand. It has no code but tests, and calls what the libraries make public.
#![tactic(auto)]

#[cfg(test)]
mod every_form;
#[cfg(test)]
mod outside;
#[cfg(test)]
mod printing;
#[cfg(test)]
mod reading;
#[cfg(test)]
mod shaders;
#[cfg(test)]
mod shown_shaders;
#[cfg(test)]
mod texts;
#[cfg(test)]
mod tokens;
